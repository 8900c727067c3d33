// Going from move to move, with the trace written as the states are left.
ghost use Rattle.std.specs.Prelude.{◌≡◌, ◌+◌, ◌-◌, ◌*◌, ◌<◌, ◌≤◌, ltb, ◌∷◌};
ghost use Rattle.coding.specs.Room.{over};
ghost use Rattle.ranges.specs.Limits.{most_processes};
ghost use Rattle.lasso.specs.Bytes.{phase_number};
ghost use Rattle.run.specs.Limits.{last_state};
ghost use Rattle.run.specs.Moves.{begun};
ghost use Rattle.run.specs.Running.{reached, turn_of, stop_of, closing, ran_of};
ghost use Rattle.run.specs.Trace.{path};
ghost use Rattle.run.specs.Working.Walking.{Walked, cleared, cleared_by, Small};

use crate::course::Course;
use crate::{Closed, Machine, Reached, Stop};
use coding::Cause;
use requirement::Phase;

// The last state that may arise.
const LAST_STATE: usize = 4096;

// The state of the start.
fn begin() -> Machine
    ensures { result ≡ begun most_processes }
{
    Machine {
        phase: Phase::Output,
        state: controller::at_start(),
        used: 0,
        scan: 0,
    }
}

impl Course<'_> {
    // From state `from` on until k scans are done. It stays a `while`: a `for` over the numbers of the states would
    // have to make one more move behind its last round, to see what stops the run there.
    fn run_to(&self, k: u16, from: usize, machine: Machine, trace: &mut [u8]) -> Reached
        requires { from ≤ last_state }
        ensures { (result ≡ reached self.now.table.now self.now.inputs.now k (last_state - from) from machine)
            × (result.number ≤ last_state)
            × (trace.new ≡ over trace.old (from * 5) (path self.now.table.now self.now.inputs.now (result.number - from) machine)) }
    {
        let mut n = from;
        let mut m = machine;
        let mut atoms = self.atoms_of(m.state);
        while m.scan < k {
            let moved = self.make_move(m);
            if let Some(cause) = moved.stopped {
                return Reached {
                    stopped: Some(cause),
                    number: n,
                    machine: m,
                };
            }
            if LAST_STATE <= n {
                return Reached {
                    stopped: Some(Cause::LongRun),
                    number: n,
                    machine: m,
                };
            }
            // the state that is left, of which the atoms are known
            scan::put_position(m.phase, atoms, n * 5, trace);
            let then = self.atoms_after(atoms, m.state, moved.machine.state);
            atoms = then;
            m = moved.machine;
            n += 1;
        }
        Reached {
            stopped: None,
            number: n,
            machine: m,
        }
    }
}

// Whose turn it was, for a refusal of an action.
fn turn_of(cause: Cause, m: Machine) -> u16
    ensures { result ≡ turn_of cause m }
{
    let c = m.state;
    let counter = c.counter;
    match cause {
        Cause::NoRule | Cause::LongTurn => counter,
        _ => 0,
    }
}

// What a stopped run answers.
fn halted(cause: Cause, m: Machine) -> Stop
    requires { m.scan < 65535 }
    ensures { result ≡ stop_of cause m }
{
    Stop::Halted(cause, m.scan + 1, turn_of(cause, m))
}

// Whether the run closes.
fn close(q: u16, back: Reached, last: Reached) -> Result<Closed, Stop>
    ensures { result ≡ closing q back last }
{
    if last.machine.state.same_as(back.machine.state) {
        Ok(Closed {
            positions: last.number,
            start: back.number,
        })
    } else {
        Err(Stop::Halted(Cause::NotClosed, q, 0))
    }
}

// The whole run. Where it closes, its trace stands in the buffer; behind that, and where it does not close, the buffer is yet to be cleared.
pub fn walk(table: &[u16], inputs: &[u16], trace: &mut [u8]) -> Result<Closed, Stop>
    ensures { (result ≡ ran_of table.now inputs.now) × Walked result table.now inputs.now trace.old trace.new }
{
    let course = Course::new(table, inputs);
    let b = lookups::return_scan(course.inputs);
    let back = course.run_to(b, 0, begin(), trace);
    if let Some(cause) = back.stopped {
        return Err(halted(cause, back.machine));
    }
    let q = lookups::scans(course.inputs);
    let last = course.run_to(q, back.number, back.machine, trace);
    match last.stopped {
        Some(cause) => Err(halted(cause, last.machine)),
        None => close(q, back, last),
    }
}

// Zeros from a place on.
fn clear_from(at: usize, trace: &mut [u8])
    ensures { trace.new ≡ cleared at trace.old }
{
    let from = at.min(trace.len());
    trace[from..].fill(0);
}

// Clears what a run leaves to be cleared: behind the trace of a closed one, and everything of a stopped one.
pub fn clear_rest(ran: Result<Closed, Stop>, trace: &mut [u8])
    requires { Small ran }
    ensures { trace.new ≡ cleared_by ran trace.old }
{
    match ran {
        Ok(closed) => clear_from(closed.positions * 5, trace),
        Err(Stop::Halted(_, _, _)) => clear_from(0, trace),
        Err(Stop::Refused(_)) => {}
    }
}
