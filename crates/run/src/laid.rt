// A test as the run lays it out.
ghost use Rattle.std.specs.Prelude.{◌<◌};

// What tests see has so many places.
pub const SEEN: usize = 42;

// Where the test looks in what tests see, the number that it compares with, and whether the two are to be equal.
#[derive(Clone, Copy)]
pub struct Laid {
    pub place: u8,
    pub number: u16,
    pub equal: bool,
    ghost in_sight: { place < 42 },
}

impl Laid {
    ghost use Rattle.std.specs.Prelude.{◌≡◌};
    ghost use Rattle.run.specs.Working.Atoms.{asked};

    // Whether the test holds of what is seen.
    #[tactic(auto, unfolding(crate::specs::Working::Atoms::asked))]
    pub fn holds(self, seen: &[u32; SEEN]) -> bool
        ensures { result ≡ asked self seen.now }
    {
        let value = seen[usize::from(self.place)];
        controller::tests::compares(self.equal, u32::from(self.number), value)
    }
}
