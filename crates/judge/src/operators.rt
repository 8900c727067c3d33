// The operators on rows, by the translation's table: the operand's row is the first row of `work`, a second
// operand's the second. The answer stands in the first.
ghost use Rattle.std.specs.Prelude.{◌≡◌, not, ◌&&◌, ◌≤◌, ◌<◌};
ghost use Rattle.meaning.specs.Phases.{phase_of};
ghost use Rattle.meaning.specs.Rows.{rowed};
ghost use Rattle.meaning.specs.Translation.{implies};
ghost use Rattle.bits.specs.Bits.{bit_at};
ghost use Rattle.bits.specs.Rows.{row_of};
ghost use Rattle.lasso.specs.Bytes.{positions, trace_of};
ghost use Rattle.judge.specs.Working.{HasRows, IsRow, behind, Became, is_at, mark_place, Marked, one_of, two_of, ever_of, always_of, next_of, until_of, reach_of};

use crate::rows;
use requirement::{End, Family, One, Phase, Two};

// A trace, its loop start, and the rows of its phases, which all operators read.
#[derive(Clone, Copy)]
pub struct MarkedTrace<'a> {
    pub trace: &'a [u8],
    pub start: usize,
    pub marks: &'a [u8],
    ghost inside: { start < positions trace.now },
    ghost few: { positions trace.now ≤ 4096 },
    ghost marked: { Marked trace.now marks.now },
}

// The phase at an end of a scan.
fn phase_of(end: End) -> Phase
    ensures { result ≡ phase_of end }
{
    match end {
        End::Reads => Phase::Input,
        End::Writes => Phase::Output,
    }
}

// Where the row of a phase stands in the marks.
fn mark_place(phase: Phase) -> usize
    ensures { (result ≡ mark_place phase) × (result ≤ 1024) }
{
    usize::from(lasso::phase_number(phase)) * rows::ROW
}

// How many rows `work` has room for differs from one method to the next, so it stands with each.
impl<'a> MarkedTrace<'a> {
    // How many positions the trace has.
    pub fn positions(&self) -> usize
        ensures { result ≡ positions self.now.trace.now }
    {
        self.trace.len() / 5
    }

    // The bytes of a row.
    pub fn row(&self) -> usize
        ensures { result ≡ row_of (positions self.now.trace.now) }
    {
        (self.positions() + 7) / 8
    }

    // The row of a phase.
    pub fn fill_phase(&self, phase: Phase, work: &mut [u8])
        requires { HasRows 1 self.now.trace.now work.old }
        ensures { Became self.now.trace.now (is_at self.now.trace.now phase) work.old work.new }
    {
        let row = self.row();
        let from = mark_place(phase);
        // No `copy_from_slice` here and in `repeat`: the archive for C would need `memmove` from outside for it.
        rows::with_each(&mut work[..row], &self.marks[from..], |_, mark| mark);
    }

    // The row where the phase is this one, and nothing elsewhere.
    fn keep(&self, phase: Phase, work: &mut [u8])
        requires { HasRows 1 self.now.trace.now work.old }
        ensures { Became self.now.trace.now (λ p. bit_at work.old p && is_at self.now.trace.now phase p) work.old
            work.new }
    {
        let row = self.row();
        let from = mark_place(phase);
        rows::with_each(&mut work[..row], &self.marks[from..], |x, mark| x & mark);
    }

    // The row negated: not.
    fn negate(&self, work: &mut [u8])
        requires { HasRows 1 self.now.trace.now work.old }
        ensures { Became self.now.trace.now (λ p. not (bit_at work.old p)) work.old work.new }
    {
        let row = self.row();
        rows::each_byte(&mut work[..row], |x| !x);
    }

    // The phase implies the row: not(phase and not row).
    fn imply(&self, phase: Phase, work: &mut [u8])
        requires { HasRows 1 self.now.trace.now work.old }
        ensures { Became self.now.trace.now
            (implies (rowed (trace_of self.now.trace.now self.now.start)) (is_at self.now.trace.now phase)
            (bit_at work.old)) work.old work.new }
    {
        self.negate(work);
        self.keep(phase, work);
        self.negate(work);
    }

    // The row where the phase is not this one.
    fn lack(&self, phase: Phase, work: &mut [u8])
        requires { HasRows 1 self.now.trace.now work.old }
        ensures { Became self.now.trace.now (λ p. not (is_at self.now.trace.now phase p)) work.old work.new }
    {
        self.fill_phase(phase, work);
        self.negate(work);
    }

    // The row of a phase as the second row; the first row stays. The rows are parts of one lent buffer: split in two,
    // what is promised of the buffer would have to be said of each part and put together again.
    fn fill_second(&self, phase: Phase, work: &mut [u8])
        requires { HasRows 2 self.now.trace.now work.old }
        ensures { IsRow self.now.trace.now work.new (bit_at work.old)
            × IsRow self.now.trace.now (behind self.now.trace.now work.new) (is_at self.now.trace.now phase) }
    {
        let row = self.row();
        self.fill_phase(phase, &mut work[row..]);
    }

    // The second row where the phase is this one; the first row stays, and the two stay one buffer, as in fill_second.
    fn keep_second(&self, phase: Phase, work: &mut [u8])
        requires { HasRows 2 self.now.trace.now work.old }
        ensures { IsRow self.now.trace.now work.new (bit_at work.old)
            × IsRow self.now.trace.now (behind self.now.trace.now work.new)
            (λ p. bit_at (behind self.now.trace.now work.old) p && is_at self.now.trace.now phase p) }
    {
        let row = self.row();
        self.keep(phase, &mut work[row..]);
    }

    // The first row in the second one's place too.
    fn repeat(&self, work: &mut [u8])
        requires { HasRows 2 self.now.trace.now work.old }
        ensures { IsRow self.now.trace.now (behind self.now.trace.now work.new) (bit_at work.old) }
    {
        let row = self.row();
        let (first, second) = work.split_at_mut(row);
        rows::with_each(&mut second[..row], first, |_, x| x);
    }

    // The next position's bit: X.
    fn next(&self, work: &mut [u8])
        requires { HasRows 1 self.now.trace.now work.old }
        ensures { IsRow self.now.trace.now work.new
            ((rowed (trace_of self.now.trace.now self.now.start)).X (bit_at work.old)) }
    {
        rows::next_row(self.positions(), self.start, work);
    }

    // The first row until the second: U.
    fn until(&self, work: &mut [u8])
        requires { HasRows 2 self.now.trace.now work.old }
        ensures { IsRow self.now.trace.now work.new
            ((rowed (trace_of self.now.trace.now self.now.start)).U (bit_at work.old)
            (bit_at (behind self.now.trace.now work.old))) }
    {
        rows::until_rows(self.positions(), self.start, work);
    }

    // At some position: F, as true until the row.
    fn ever(&self, work: &mut [u8])
        requires { HasRows 2 self.now.trace.now work.old }
        ensures { IsRow self.now.trace.now work.new
            ((rowed (trace_of self.now.trace.now self.now.start)).F (bit_at work.old)) }
    {
        let row = self.row();
        self.repeat(work);
        work[..row].fill(255);
        self.until(work);
    }

    // At every position: G, as not F not.
    fn always(&self, work: &mut [u8])
        requires { HasRows 2 self.now.trace.now work.old }
        ensures { IsRow self.now.trace.now work.new
            ((rowed (trace_of self.now.trace.now self.now.start)).G (bit_at work.old)) }
    {
        self.negate(work);
        self.ever(work);
        self.negate(work);
    }

    // The row at a position of the phase, and nowhere before it the other phase: (not other) U (phase and row).
    fn before(&self, other: Phase, phase: Phase, work: &mut [u8])
        requires { HasRows 2 self.now.trace.now work.old }
        ensures { IsRow self.now.trace.now work.new
            ((rowed (trace_of self.now.trace.now self.now.start)).U (λ p. not (is_at self.now.trace.now other p))
            (λ p. is_at self.now.trace.now phase p && bit_at work.old p)) }
    {
        self.keep(phase, work);
        self.repeat(work);
        self.lack(other, work);
        self.until(work);
    }

    // Up to the first position of the phase, that one too: (not phase) U (phase and row).
    fn reach(&self, phase: Phase, work: &mut [u8])
        requires { HasRows 2 self.now.trace.now work.old }
        ensures { IsRow self.now.trace.now work.new
            (reach_of (trace_of self.now.trace.now self.now.start) phase (bit_at work.old)) }
    {
        self.before(phase, phase, work);
    }

    // The row at the second position of a sequence, whose first is the nearest of one phase, and whose second the
    // nearest of the other after it.
    fn second_of_sequence(&self, first: Phase, second: Phase, work: &mut [u8])
        requires { HasRows 2 self.now.trace.now work.old }
        ensures { IsRow self.now.trace.now work.new
            (reach_of (trace_of self.now.trace.now self.now.start) first
            ((rowed (trace_of self.now.trace.now self.now.start)).X
            (reach_of (trace_of self.now.trace.now self.now.start) second (bit_at work.old)))) }
    {
        self.reach(second, work);
        self.next(work);
        self.reach(first, work);
    }

    // X, at the next position, or at the next one of a phase.
    fn next_in(&self, family: Family, work: &mut [u8])
        requires { HasRows 2 self.now.trace.now work.old }
        ensures { IsRow self.now.trace.now work.new
            (next_of (trace_of self.now.trace.now self.now.start) family (bit_at work.old)) }
    {
        match family {
            Family::Plain => {
                self.next(work);
            }
            Family::Within => {
                self.keep(Phase::Exe, work);
                self.next(work);
            }
            Family::Each(end) => {
                let phase = phase_of(end);
                self.second_of_sequence(phase, phase, work);
            }
        }
    }

    // F^e is (not Output) U (Exe and row).
    fn ever_in(&self, family: Family, work: &mut [u8])
        requires { HasRows 2 self.now.trace.now work.old }
        ensures { IsRow self.now.trace.now work.new
            (ever_of (trace_of self.now.trace.now self.now.start) family (bit_at work.old)) }
    {
        match family {
            Family::Plain => {
                self.ever(work);
            }
            Family::Within => {
                self.before(Phase::Output, Phase::Exe, work);
            }
            Family::Each(end) => {
                self.keep(phase_of(end), work);
                self.ever(work);
            }
        }
    }

    // G^e is (row and Exe) U Output.
    fn always_in(&self, family: Family, work: &mut [u8])
        requires { HasRows 2 self.now.trace.now work.old }
        ensures { IsRow self.now.trace.now work.new
            (always_of (trace_of self.now.trace.now self.now.start) family (bit_at work.old)) }
    {
        match family {
            Family::Plain => {
                self.always(work);
            }
            Family::Within => {
                self.keep(Phase::Exe, work);
                self.fill_second(Phase::Output, work);
                self.until(work);
            }
            Family::Each(end) => {
                self.imply(phase_of(end), work);
                self.always(work);
            }
        }
    }

    // U^e is (first and Exe) U (second and Exe), and U at the positions of a phase is
    // (phase implies first) U (phase and second).
    fn until_in(&self, family: Family, work: &mut [u8])
        requires { HasRows 2 self.now.trace.now work.old }
        ensures { IsRow self.now.trace.now work.new
            (until_of (trace_of self.now.trace.now self.now.start) family (bit_at work.old)
            (bit_at (behind self.now.trace.now work.old))) }
    {
        match family {
            Family::Plain => {}
            Family::Within => {
                self.keep(Phase::Exe, work);
                self.keep_second(Phase::Exe, work);
            }
            Family::Each(end) => {
                let phase = phase_of(end);
                self.imply(phase, work);
                self.keep_second(phase, work);
            }
        }
        self.until(work);
    }

    // An operator over one operand.
    pub fn apply_one(&self, operator: One, work: &mut [u8])
        requires { HasRows 2 self.now.trace.now work.old }
        ensures { IsRow self.now.trace.now work.new
            (one_of (trace_of self.now.trace.now self.now.start) operator (bit_at work.old)) }
    {
        match operator {
            One::Not => {
                self.negate(work);
            }
            One::Next(family) => {
                self.next_in(family, work);
            }
            One::Ever(family) => {
                self.ever_in(family, work);
            }
            One::Always(family) => {
                self.always_in(family, work);
            }
        }
    }

    // An operator over two operands.
    pub fn apply_two(&self, operator: Two, work: &mut [u8])
        requires { HasRows 2 self.now.trace.now work.old }
        ensures { IsRow self.now.trace.now work.new
            (two_of (trace_of self.now.trace.now self.now.start) operator (bit_at work.old)
            (bit_at (behind self.now.trace.now work.old))) }
    {
        match operator {
            Two::And => {
                let row = self.row();
                let (first, second) = work.split_at_mut(row);
                rows::with_each(first, second, |x, y| x & y);
            }
            Two::Until(family) => {
                self.until_in(family, work);
            }
        }
    }
}
