// What a run goes by.
ghost use Rattle.run.specs.Working.Index.{Indexed};
ghost use Rattle.run.specs.Working.Atoms.{LaidOut};

use crate::laid::Laid;
use crate::{atoms, places};

// A table and the recorded inputs, with what is looked up of the table once: where its states have their actions, and
// its tests laid out.
#[derive(Drop)]
pub struct Course<'a> {
    pub table: &'a [u16],
    pub inputs: &'a [u16],
    pub places: [usize; places::PLACES],
    pub laid: [Laid; atoms::TESTS],
    ghost indexed: { Indexed table.now places },
    ghost laid_out: { LaidOut table.now laid },
}

impl<'a> Course<'a> {
    ghost use Rattle.std.specs.Prelude.{◌≡◌};

    pub fn new(table: &'a [u16], inputs: &'a [u16]) -> Course<'a>
        ensures { (result.table.now ≡ table.now) × (result.inputs.now ≡ inputs.now) }
    {
        Course {
            table,
            inputs,
            places: places::places_of(table),
            laid: atoms::lay_out(table),
        }
    }
}
