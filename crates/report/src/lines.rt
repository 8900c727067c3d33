// The lines that are printed, into a lent buffer. A byte behind its end is not written, so nothing is asked of its
// length. (Not by `write!`: by its contract it may fail, and then says nothing of what was written; `report` has a text
// for every input.)
ghost use Rattle.std.specs.Prelude.{◌≡◌, [], ◌∷◌, ◌++◌, ◌+◌, ◌*◌, ◌^◌, ◌≤◌, ◌<◌, length, get_or};
ghost use Rattle.coding.specs.Refusal.{number_of};
ghost use Rattle.report.specs.Lines.{decimal, at_line, refused_line, positions_line, verdict_line, count_line, at_lines};
ghost use Rattle.report.specs.Placing.{Put, Puts, pairs_from};
ghost use Rattle.report.specs.Printing.{longest_text};

use coding::Refusal;
use judge::Verdict;
use run::Closed;

// The buffer, and the place in it, or behind its end, where the next byte belongs.
#[derive(Drop)]
struct Lines<'a> {
    out: &'a mut [u8],
    at: usize,
}

impl Lines<'_> {
    // One byte.
    fn byte(&mut self, byte: u8)
        requires { self.old.at < 2 ^ 33 }
        ensures { Puts (byte ∷ []) self.old self.new }
    {
        coding::set_at(self.out, self.at, byte);
        self.at += 1;
    }

    // The bytes of a word.
    fn word(&mut self, word: &[u8])
        requires { (self.old.at < 2 ^ 32) × (length word.now ≤ 40) }
        ensures { Puts word.now self.old self.new }
    {
        for byte in word {
            self.byte(*byte);
        }
    }

    // A number in decimal digits.
    fn number(&mut self, n: usize)
        requires { self.old.at < 2 ^ 32 }
        ensures puts { Puts (decimal n) self.old self.new }
        ensures short { self.new.at ≤ self.old.at + 20 }
    {
        let mut digits = itoa::Buffer::new();
        self.word(digits.format(n).as_bytes());
    }

    // `at` and a place.
    fn at_line(&mut self, place: usize)
        requires { self.old.at < 2 ^ 31 }
        ensures puts { Puts (at_line place) self.old self.new }
        ensures short { self.new.at ≤ self.old.at + 24 }
    {
        self.word(b"at ");
        self.number(place);
        self.word(b"\n");
    }

    // `positions`, the count, `loop` and the loop start.
    fn positions(&mut self, n: usize, start: usize)
        requires { self.old.at < 2 ^ 31 }
        ensures puts { Puts (positions_line n start) self.old self.new }
        ensures short { self.new.at ≤ self.old.at + 100 }
    {
        self.word(b"positions ");
        self.number(n);
        self.word(b" loop ");
        self.number(start);
        self.word(b"\n");
    }

    // `verdict` and whether the requirement holds.
    fn verdict(&mut self, holds: bool)
        requires { self.old.at < 2 ^ 31 }
        ensures puts { Puts (verdict_line holds) self.old self.new }
        ensures short { self.new.at ≤ self.old.at + 20 }
    {
        if holds {
            self.word(b"verdict holds\n");
        } else {
            self.word(b"verdict fails\n");
        }
    }

    // `fails` and the count of findings.
    fn count(&mut self, count: usize)
        requires { self.old.at < 2 ^ 31 }
        ensures puts { Puts (count_line count) self.old self.new }
        ensures short { self.new.at ≤ self.old.at + 30 }
    {
        self.word(b"fails ");
        self.number(count);
        self.word(b"\n");
    }

    // A line for each of the first `count` positions of the list.
    fn findings(&mut self, list: &[u8], count: usize)
        requires { (count ≤ 4096) × (self.old.at ≤ 1000) }
        ensures puts { Puts (at_lines (pairs_from count 0 list.now)) self.old self.new }
        ensures short { self.new.at ≤ self.old.at + 24 * count }
    {
        for i in 0..count {
            let low = byte_at(list, 2 * i);
            let high = byte_at(list, 2 * i + 1);
            self.at_line(low + 256 * high);
        }
    }
}

// A byte of the list; 0 past its end.
fn byte_at(list: &[u8], at: usize) -> usize
    ensures { (result ≡ get_or list.now at 0) × (result < 256) }
{
    usize::from(list.get(at).copied().unwrap_or(0))
}

// `refused`, the cause's number, `at` and a place: the whole text of a refusal.
pub fn put_refused(why: Refusal, out: &mut [u8]) -> usize
    ensures { Put (refused_line (number_of why.cause) why.place) 0 result out.old out.new × (result ≤ longest_text) }
{
    let mut lines = Lines { out, at: 0 };
    lines.word(b"refused ");
    lines.number(usize::from(coding::number_of(why.cause)));
    lines.word(b" ");
    lines.at_line(why.place);
    lines.at
}

// The whole text of an accepted input.
pub fn put_answer(closed: Closed, verdict: Verdict, list: &[u8], out: &mut [u8]) -> usize
    requires { verdict.count ≤ 4096 }
    ensures { Put (positions_line closed.positions closed.start ++ (verdict_line verdict.holds
        ++ (count_line verdict.count ++ at_lines (pairs_from verdict.count 0 list.now)))) 0 result out.old out.new
        × (result ≤ longest_text) }
{
    let mut lines = Lines { out, at: 0 };
    lines.positions(closed.positions, closed.start);
    lines.verdict(verdict.holds);
    lines.count(verdict.count);
    lines.findings(list, verdict.count);
    lines.at
}
