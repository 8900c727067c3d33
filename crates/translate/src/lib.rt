// The translation of a requirement to plain operators and marks, written as its code.
#![tactic(auto)]

mod forms;
mod tree;
mod writing;

ghost use Rattle.std.specs.Prelude.{◌≡◌};
ghost use Rattle.coding.specs.Code.{code_at};
ghost use Rattle.coding.specs.Room.{stored};
ghost use Rattle.requirement.specs.Reading.{parsed};
ghost use Rattle.translate.specs.Writing.{translated, translation, untranslated};

use coding::{Answer, Cause};
use requirement::Kind;
use writing::Writing;

// The room that is asked: two bytes for every node that a translated requirement may have.
const ROOM_ASKED: usize = 1408;

// Translates a requirement: how many bytes, or a refusal.
pub fn translate(code: &[u8], out: &mut [u8]) -> Answer
    ensures { (result ≡ translated code.now out.old)
        × (out.new ≡ stored result out.old (translation (parsed untranslated (code_at code.now 0)))) }
{
    if out.len() < ROOM_ASKED {
        return Err(Cause::ShortBuffer.at(ROOM_ASKED));
    }
    let checked = requirement::check(Kind::Untranslated, code)?;
    let mut writing = Writing { out, place: 0 };
    writing.translate_node(code, 0, checked.depth);
    Ok(writing.place)
}
