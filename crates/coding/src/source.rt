// Where numbers come from: bytes, where a place is a byte, or a row of numbers, where it is an index. Every check is written once, for both.
ghost use Rattle.std.specs.Prelude.{◌≡◌};
ghost use Rattle.coding.specs.Code.{Places, Turns, places_of_bytes, places_of_numbers};
ghost use Rattle.coding.specs.Working.Turning.{bytes_turn, numbers_turn};

use crate::{Cause, Number, Refusal};

pub trait Source: Copy {
    // the code from each place on, how many places there are, and the number at each
    ghost places: { Self → Places };

    // The number at a place.
    fn number_at(self, at: usize) -> Result<Number, Refusal>
        ensures { result ≡ (places self).number at };

    // How many bytes or numbers there are.
    fn size(self) -> usize
        ensures { result ≡ (places self).size };

    // The number at a place is the code's next, and where there is none the code ends or is broken.
    ghost turns: { (source : Self) → Turns (places source) };
}

impl Source for &[u8] {
    ghost places = { λ code. places_of_bytes code.now };

    ghost turns = { λ code. bytes_turn code.now };

    fn number_at(self, at: usize) -> Result<Number, Refusal> {
        crate::read_number(self, at)
    }

    fn size(self) -> usize {
        self.len()
    }
}

impl Source for &[u16] {
    ghost places = { λ numbers. places_of_numbers numbers.now };

    ghost turns = { λ numbers. numbers_turn numbers.now };

    #[tactic(auto, unfolding(crate::specs::Code::number_in))]
    fn number_at(self, at: usize) -> Result<Number, Refusal> {
        match self.get(at) {
            Some(value) => Ok(Number {
                value: *value,
                next: at + 1,
            }),
            None => Err(Cause::CutShort.at(at)),
        }
    }

    fn size(self) -> usize {
        self.len()
    }
}
