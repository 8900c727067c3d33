// The program scancheck as one function: input bytes in, the printed text out.
#![tactic(auto)]

mod framing;
mod lines;

ghost use Rattle.judge.specs.Judging.{checks_of};
ghost use Rattle.lasso.specs.Bytes.{trace_of};
ghost use Rattle.requirement.specs.declared.Kind.TheVariants.{Untranslated};
ghost use Rattle.report.specs.Framing.{framing_of};
ghost use Rattle.report.specs.Reporting.{work_room, list_room, OfJudging, OfBlocks, Reports};
ghost use Rattle.report.specs.Printing.{Prints};

use requirement::Kind;
use run::Closed;

// Room for the trace, for work and for the list.
const TRACE: usize = 20480;

const WORK: usize = 8192;

const LIST: usize = 8192;

// Judges the requirement on the run's trace.
fn report_judging(code: &[u8], closed: Closed, trace: &[u8], out: &mut [u8]) -> usize
    ensures { Prints (OfJudging (checks_of Untranslated code.now trace.now closed.start work_room list_room)
        (trace_of trace.now closed.start) closed.positions closed.start) result out.old out.new }
{
    let mut work = [0u8; WORK];
    let mut list = [0u8; LIST];
    match judge::judge(
        Kind::Untranslated,
        code,
        trace,
        closed.start,
        &mut work,
        &mut list,
    ) {
        Ok(verdict) => lines::put_answer(closed, verdict, &list, out),
        Err(why) => lines::put_refused(why, out),
    }
}

// Runs the table over the inputs, and judges.
fn report_blocks(table: &[u8], inputs: &[u8], code: &[u8], out: &mut [u8]) -> usize
    ensures { Prints (OfBlocks table.now inputs.now code.now) result out.old out.new }
{
    let mut trace = [0u8; TRACE];
    match run::run(table, inputs, &mut trace) {
        Ok(closed) => {
            let front = closed.positions * 5;
            report_judging(code, closed, &trace[..front], out)
        }
        Err(stop) => lines::put_refused(stop.told(), out),
    }
}

// The whole program: the text printed for an input stands at the front of the buffer, and the answer is how many bytes it has.
pub fn report(input: &[u8], out: &mut [u8]) -> usize
    ensures { Prints (Reports input.now (framing_of input.now)) result out.old out.new }
{
    match framing::framing(input) {
        Ok(blocks) => report_blocks(
            &input[blocks.table.begin..blocks.table.end],
            &input[blocks.inputs.begin..blocks.inputs.end],
            &input[blocks.requirement.begin..blocks.requirement.end],
            out,
        ),
        Err(why) => lines::put_refused(why, out),
    }
}
