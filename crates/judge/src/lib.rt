// Judging a requirement on a lasso trace: the verdict at moment 0, and how many findings there are and where.
#![tactic(auto)]

mod findings;
mod operators;
mod rows;
mod tree;

ghost use Rattle.std.specs.Prelude.{length, ◌<◌};
ghost use Rattle.lasso.specs.Bytes.{trace_of};
ghost use Rattle.requirement.specs.Walking.{walk_at};
ghost use Rattle.judge.specs.Judging.{checks_of, Judges};
ghost use Rattle.judge.specs.Working.{Room, Tallies};

use coding::{Cause, Refusal};
use operators::MarkedTrace;
use requirement::Kind;

// Room for the rows of the three phases, one buffer: a mark is named by its place in it (`mark_place`, `Marked`).
const MARKS: usize = 1536;

// What an accepted judging answers: whether the requirement holds at moment 0, and how many findings there are.
#[derive(Clone, Copy, Debug, PartialEq, Eq)]
pub struct Verdict {
    pub holds: bool,
    pub count: usize,
}

// Rows, verdict and count: the row of the findings is left in the first row of `work`.
fn judge_rows(
    kind: Kind,
    code: &[u8],
    depth: u16,
    trace: &[u8],
    start: usize,
    work: &mut [u8],
) -> Verdict
    requires { (0 < depth) × Room depth trace.now start work.old }
    ensures { Tallies (walk_at kind depth code.now 0) trace.now start work.new result }
{
    let mut marks = [0u8; MARKS];
    rows::fill_marks(trace, &mut marks);
    let marked = MarkedTrace {
        trace,
        start,
        marks: &marks,
    };
    tree::judge_node(kind, code, 0, depth, &marked, work);
    let holds = work[0] >= 128;
    findings::keep_failing(&marked, work);
    let count = findings::count_row(&work[..marked.row()]);
    Verdict { holds, count }
}

// Judges a requirement of the kind told on a trace and its loop start, in the work that is lent; the findings go to the list.
pub fn judge(
    kind: Kind,
    code: &[u8],
    trace: &[u8],
    start: usize,
    work: &mut [u8],
    list: &mut [u8],
) -> Result<Verdict, Refusal>
    ensures { Judges (checks_of kind code.now trace.now start (length work.old) (length list.old))
        (trace_of trace.now start) work.old list.old work.new list.new result }
{
    let checked = requirement::check(kind, code)?;
    let n = lasso::check(trace, start)?;
    let row = (n + 7) / 8;
    let asked = usize::from(checked.depth) * row;
    if work.len() < asked {
        return Err(Cause::ShortBuffer.at(asked));
    }
    let wanted = 2 * lasso::count_inputs(trace);
    if list.len() < wanted {
        return Err(Cause::ShortBuffer.at(wanted));
    }
    let verdict = judge_rows(kind, code, checked.depth, trace, start, work);
    findings::list_row(&work[..row], list);
    findings::clear(work);
    Ok(verdict)
}
