// The lent buffer that a translation is written into.
ghost use Rattle.std.specs.Prelude.{◌≤◌, length};

// The buffer, and the place in it where the next byte belongs.
#[derive(Drop)]
pub struct Writing<'a> {
    pub out: &'a mut [u8],
    pub place: usize,
    ghost within: { place ≤ length out.now },
}

impl Writing<'_> {
    ghost use Rattle.std.specs.Prelude.{◌≤◌, length};
    ghost use Rattle.translate.specs.Writing.{Put, Puts};

    // Bytes from a place of a buffer on, as far as there is room. The place after them. Buffer and place are values
    // here: kept in the struct, they went through memory at every byte, and translating took up to twice as long.
    // (`copy_from_slice` is no plainer for one to eleven bytes, since it would need the room tested.)
    fn put_from(bytes: &[u8], out: &mut [u8], place: usize) -> usize
        requires { place ≤ length out.old }
        ensures { Put out.old place bytes.now out.new result }
    {
        let mut at = place;
        for byte in bytes {
            if at < out.len() {
                out[at] = *byte;
                at += 1;
            }
        }
        at
    }

    // Bytes at the place, as far as there is room.
    pub fn put(&mut self, bytes: &[u8])
        ensures { Puts bytes.now self.old self.new }
    {
        self.place = Writing::put_from(bytes, self.out, self.place);
    }
}
