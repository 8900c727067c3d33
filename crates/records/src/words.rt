// What the programs print of a refusal and of a kind of requirement. (No `Display`: the types are other crates', and the
// words the programs' own.)
ghost use Rattle.std.specs.Prelude.{◌≡◌, OnOk};
ghost use Rattle.std.specs.Io.KnownBytes.{Appends};
ghost use Rattle.coding.specs.Refusal.{number_of};
ghost use Rattle.records.specs.Words.{refused, kind_word};

use coding::Refusal;
use requirement::Kind;
use std::io;
use std::io::Write;

// `: refused`, the cause's number, `at` and the place.
pub fn say_refused<W: Write>(out: &mut W, why: Refusal) -> io::Result<()>
    ensures { OnOk result (Appends (W.contents out.old) (W.contents out.new)
        (refused (number_of why.cause) why.place)) }
{
    let number = coding::number_of(why.cause);
    write!(out, ": refused {number} at {}", why.place)
}

// The word for a kind of requirement.
pub fn word_of(kind: Kind) -> &'static str
    ensures { result.now ≡ kind_word kind }
{
    match kind {
        Kind::Untranslated => "requirement",
        Kind::Translated => "translated",
    }
}
