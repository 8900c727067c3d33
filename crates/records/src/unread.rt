// An input, taken apart from the front.
ghost use Rattle.std.specs.Prelude.{◌≡◌, ◌<◌, ◌≤◌, ◌+◌, ◌*◌, ◌∷◌, [], length, take, drop, slice_index, MatchOption};

// What is left of an input.
#[derive(Clone, Copy)]
pub struct Unread<'a> {
    pub rest: &'a [u8],
}

impl<'a> Unread<'a> {
    pub fn of(input: &'a [u8]) -> Self
        ensures { result.rest.now ≡ input.now }
    {
        Unread { rest: input }
    }

    // The next byte.
    pub fn byte(&mut self) -> Option<u8>
        ensures { MatchOption result (self.old.rest.now ≡ []) (λ b. self.old.rest.now ≡ b ∷ self.new.rest.now) }
    {
        let (first, others) = self.rest.split_first()?;
        self.rest = others;
        Some(*first)
    }

    // The next 16-bit number, low byte first.
    pub fn number(&mut self) -> Option<u16>
        ensures { MatchOption result (length self.old.rest.now < 2) (λ n.
            (n ≡ slice_index self.old.rest.now 0 + 256 * slice_index self.old.rest.now 1)
            × (self.new.rest.now ≡ drop 2 self.old.rest.now) × (2 ≤ length self.old.rest.now)) }
    {
        let (bytes, others) = self.rest.split_first_chunk::<2>()?;
        self.rest = others;
        Some(u16::from_le_bytes(*bytes))
    }

    // The next bytes, so many.
    pub fn bytes(&mut self, count: usize) -> Option<&'a [u8]>
        ensures { MatchOption result (length self.old.rest.now < count) (λ front.
            (front.now ≡ take count self.old.rest.now)
            × (self.new.rest.now ≡ drop count self.old.rest.now) × (count ≤ length self.old.rest.now)) }
    {
        let (front, others) = self.rest.split_at_checked(count)?;
        self.rest = others;
        Some(front)
    }
}
