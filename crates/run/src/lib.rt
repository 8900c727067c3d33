// The run of a table over recorded inputs by the published rules, and its closing to a lasso trace.
#![tactic(auto)]

mod atoms;
mod course;
mod laid;
mod moves;
mod places;
mod route;

ghost use Rattle.std.specs.Prelude.{◌≡◌, ◌≤◌, length};
ghost use Rattle.run.specs.declared.Stop.TheVariants.{Refused};
ghost use Rattle.run.specs.Limits.{trace_room};
ghost use Rattle.run.specs.Running.{ran_of};
ghost use Rattle.run.specs.Trace.{numbers_in, by_inputs, run_of, left_in, stop_told};
ghost use Rattle.table.specs.Table.{inputs_grammar};
ghost use Rattle.coding.specs.Code.{code_at};
ghost use Rattle.lookups.specs.Places.{inputs_of};

use coding::{Cause, Refusal};
use controller::Controller;
use requirement::Phase;

// The bytes of a trace of 4,096 positions, and room for the numbers of any table and of any inputs record.
const TRACE_ROOM: usize = 20480;

const TABLE_NUMBERS: usize = 6348;

const INPUTS_NUMBERS: usize = 43682;

// A state of the run: its phase, the controller's state, the actions done so far in the turn, and the scans done.
#[derive(Clone, Copy)]
pub struct Machine {
    pub phase: Phase,
    pub state: Controller,
    pub used: u16,
    pub scan: u16,
}

// What one move comes to: what stops the run, if anything does, and the machine after the move, or, where it stops the
// run, before it. It is no Result: the definition `recorded_move` and the theorems over it (`invariants`) have a machine
// in both cases.
#[derive(Clone, Copy)]
pub struct Moved {
    pub stopped: Option<Cause>,
    pub machine: Machine,
}

// Where a run has come: what stopped it, if anything did, and the state of this number, wanted or the last before the
// stop. It is no Result: number and machine are looked at in both cases.
#[derive(Clone, Copy)]
pub struct Reached {
    pub stopped: Option<Cause>,
    pub number: usize,
    pub machine: Machine,
}

// A run that closes: how many positions its trace has, and where its loop starts.
#[derive(Clone, Copy, Debug, PartialEq, Eq)]
pub struct Closed {
    pub positions: usize,
    pub start: usize,
}

// Why a run does not close: the cause, the scan and the process of a stop (0 where no process is to be named, as the
// definition `turn_of` has it); or a refusal of what was given.
#[derive(Clone, Copy, Debug, PartialEq, Eq)]
pub enum Stop {
    Halted(Cause, u16, u16),
    Refused(Refusal),
}

impl From<Refusal> for Stop {
    ghost from_gives = { λ why stop. stop ≡ Refused why };

    fn from(why: Refusal) -> Stop {
        Stop::Refused(why)
    }
}

impl Stop {
    // The refusal that a stop is told as: its cause, at the scan.
    pub fn told(self) -> Refusal
        ensures { result ≡ stop_told self }
    {
        match self {
            Stop::Halted(cause, scan, _) => cause.at(usize::from(scan)),
            Stop::Refused(why) => why,
        }
    }
}

// Runs a table's numbers over those of an inputs record.
fn run_numbers(table: &[u16], inputs: &[u16], trace: &mut [u8]) -> Result<Closed, Stop>
    requires { trace_room ≤ length trace.old }
    ensures { (result ≡ ran_of table.now inputs.now) × (trace.new ≡ left_in result table.now inputs.now trace.old) }
{
    let ran = route::walk(table, inputs, trace);
    route::clear_rest(ran, trace);
    ran
}

// Reads the inputs record, then runs.
fn run_table(table: &[u16], inputs: &[u8], trace: &mut [u8]) -> Result<Closed, Stop>
    requires { trace_room ≤ length trace.old }
    ensures { (result ≡ by_inputs table.now (numbers_in inputs.now) (inputs_grammar (inputs_of table.now) (code_at inputs.now 0)))
        × (trace.new ≡ left_in result table.now (numbers_in inputs.now) trace.old) }
{
    let mut numbers = [0u16; INPUTS_NUMBERS];
    let n = table::read_inputs(lookups::inputs(table), inputs, &mut numbers)?;
    run_numbers(table, &numbers[0..n], trace)
}

// Runs a table over recorded inputs, both as bytes, into a lent trace buffer.
pub fn run(table: &[u8], inputs: &[u8], trace: &mut [u8]) -> Result<Closed, Stop>
    ensures { (result ≡ run_of (length trace.old) table.now inputs.now)
        × (trace.new ≡ left_in result (numbers_in table.now) (numbers_in inputs.now) trace.old) }
{
    if trace.len() < TRACE_ROOM {
        return Err(Stop::Refused(Cause::ShortBuffer.at(TRACE_ROOM)));
    }
    let mut numbers = [0u16; TABLE_NUMBERS];
    let n = table::read_table(table, &mut numbers)?;
    run_table(&numbers[0..n], inputs, trace)
}
