// What numbers a table and an inputs record may hold: a machine that takes one number at a time.
#![tactic(auto)]

pub mod allowed;

ghost use Rattle.std.specs.Prelude.{◌≡◌, eqb};
ghost use Rattle.ranges.specs.Order.{after_action, of_variables, with_tests, with_processes, step_of};
ghost use Rattle.ranges.specs.Values.{pick};

use allowed::{
    between, guard_ok, is_internal, next_ok, op_ok, test_a_ok, total_ok, uses_else, uses_nexts,
    x_ok, y_ok,
};

pub const MOST_VARIABLES: u16 = 32;

pub const MOST_PROCESSES: u16 = 8;

pub const MOST_TESTS: u16 = 32;

pub const MOST_STATES: u16 = 8;

pub const MOST_ACTIONS: u16 = 16;

pub const MOST_SCANS: u16 = 1365;

pub const LONGEST_BOUND: u16 = 4095;

pub const ERR_STATE: u16 = 255;

// The sizes of a table that are known so far.
#[derive(Clone, Copy)]
pub struct Shape {
    pub inputs: u16,
    pub internals: u16,
    pub outputs: u16,
    pub tests: u16,
    pub processes: u16,
}

// Where the walk through the processes stands, each counted from 1: the process, of so many states the state,
// of so many actions the action.
#[derive(Clone, Copy)]
pub struct Spot {
    pub process: u16,
    pub states: u16,
    pub state: u16,
    pub actions: u16,
    pub action: u16,
}

impl Shape {
    // The variables alone.
    fn of_variables(inputs: u16, internals: u16, outputs: u16) -> Shape
        ensures { result ≡ of_variables inputs internals outputs }
    {
        Shape {
            inputs,
            internals,
            outputs,
            tests: 0,
            processes: 0,
        }
    }

    fn with_tests(self, tests: u16) -> Shape
        ensures { result ≡ with_tests self tests }
    {
        Shape {
            tests,
            processes: 0,
            ..self
        }
    }

    fn with_processes(self, processes: u16) -> Shape
        ensures { result ≡ with_processes self processes }
    {
        Shape { processes, ..self }
    }
}

// What number is wanted next, with all that decides whether it is allowed.
#[derive(Clone, Copy)]
pub enum Want {
    // A table: the three counts of variables
    Inputs,
    Internals(u16),
    Outputs(u16, u16),
    // the source of an output, so many of them left
    Source(Shape, u16),
    // the tests, each of kind, a, b, so many of them left; kind and a are kept for the second look at kind 2
    Tests(Shape),
    Kind(Shape, u16),
    TestA(Shape, u16, u16),
    TestB(Shape, u16, u16, u16),
    // the processes, their states, the states' actions
    Processes(Shape),
    States(Shape, u16),
    Actions(Shape, u16, u16, u16),
    // an action: what stands before the number that is wanted is its op, then its guard
    Op(Shape, Spot),
    X(Shape, Spot, u16),
    Y(Shape, Spot, u16),
    Guard(Shape, Spot, u16),
    NextIf(Shape, Spot, u16, u16),
    NextElse(Shape, Spot, u16, u16),
    // An inputs record: the scans, where a scan has so many input variables; the return scan; so many numbers more
    Scans(u16),
    Return(u16, u16),
    Reading(usize),
}

// What a number leads to: another is wanted, it was the last, or it may not stand there.
// It is no Result<Option<Want>, _>: the definition `step_of`, which `advance` promises, has these three cases, and the
// place of a refusal, which an error would have to tell, is not known here.
#[derive(Clone, Copy)]
pub enum Step {
    More(Want),
    Last,
    NotAllowed,
}

// The sources of so many outputs more, and then the tests.
fn sources_left(shape: Shape, left: u16) -> Want
    ensures { result ≡ pick (eqb left 0) (Want.Tests shape) (Want.Source shape left) }
{
    if left == 0 {
        Want::Tests(shape)
    } else {
        Want::Source(shape, left)
    }
}

// So many tests more, and then the processes. Apart from sources_left: one function for both would take the two
// cases of Want that each names, and be no plainer.
fn tests_left(shape: Shape, left: u16) -> Want
    ensures { result ≡ pick (eqb left 0) (Want.Processes shape) (Want.Kind shape left) }
{
    if left == 0 {
        Want::Processes(shape)
    } else {
        Want::Kind(shape, left)
    }
}

// So many readings more, and then nothing.
fn readings_left(left: usize) -> Step
    ensures { result ≡ pick (eqb left 0) Step.Last (Step.More (Want.Reading left)) }
{
    if left == 0 {
        Step::Last
    } else {
        Step::More(Want::Reading(left))
    }
}

// After an action: the next action of the body, the next state, the next process, or nothing.
#[tactic(auto, unfolding(crate::specs::Order::after_action))]
fn after_action(shape: Shape, spot: Spot) -> Step
    ensures { result ≡ after_action shape spot }
{
    if spot.action < spot.actions {
        let action = spot.action + 1;
        Step::More(Want::Op(shape, Spot { action, ..spot }))
    } else if spot.state < spot.states {
        Step::More(Want::Actions(shape, spot.process, spot.states, spot.state + 1))
    } else if spot.process < shape.processes {
        Step::More(Want::States(shape, spot.process + 1))
    } else {
        Step::Last
    }
}

fn else_step(shape: Shape, spot: Spot, op: u16, guard: u16, v: u16) -> Step
    ensures { result ≡ step_of 0 (Want.NextElse shape spot op guard) v }
{
    if next_ok(spot, uses_else(op, guard), v) {
        after_action(shape, spot)
    } else {
        Step::NotAllowed
    }
}

fn return_step(inputs: u16, scans: u16, v: u16) -> Step
    ensures { result ≡ step_of 0 (Want.Return inputs scans) v }
{
    if scans <= v {
        Step::NotAllowed
    } else {
        readings_left(usize::from(scans) * usize::from(inputs))
    }
}

// What the number v leads to where `want` is wanted, if a table may have `most` processes.
pub fn advance(most: u16, want: Want, v: u16) -> Step
    ensures { result ≡ step_of most want v }
{
    // One arm for each case of Want, so the match is as long as they are many. The three that return may end with the
    // last number.
    let next = match want {
        Want::Inputs => total_ok(0, 0, v).then_some(Want::Internals(v)),
        Want::Internals(inputs) => total_ok(inputs, 0, v).then_some(Want::Outputs(inputs, v)),
        Want::Outputs(inputs, internals) => {
            let shape = Shape::of_variables(inputs, internals, v);
            total_ok(inputs, internals, v).then_some(sources_left(shape, v))
        }
        Want::Source(shape, left) => {
            is_internal(shape, v).then_some(sources_left(shape, left.saturating_sub(1)))
        }
        Want::Tests(shape) => {
            between(0, v, MOST_TESTS).then_some(tests_left(shape.with_tests(v), v))
        }
        Want::Kind(shape, left) => between(0, v, 2).then_some(Want::TestA(shape, left, v)),
        Want::TestA(shape, left, kind) => {
            test_a_ok(shape, kind, v).then_some(Want::TestB(shape, left, kind, v))
        }
        Want::TestB(shape, left, _, _) => Some(tests_left(shape, left.saturating_sub(1))),
        Want::Processes(shape) => {
            between(1, v, most).then_some(Want::States(shape.with_processes(v), 1))
        }
        Want::States(shape, process) => {
            between(1, v, MOST_STATES).then_some(Want::Actions(shape, process, v, 1))
        }
        Want::Actions(shape, process, states, state) => {
            let spot = Spot {
                process,
                states,
                state,
                actions: v,
                action: 1,
            };
            between(1, v, MOST_ACTIONS).then_some(Want::Op(shape, spot))
        }
        Want::Op(shape, spot) => op_ok(spot, v).then_some(Want::X(shape, spot, v)),
        Want::X(shape, spot, op) => x_ok(shape, spot, op, v).then_some(Want::Y(shape, spot, op)),
        Want::Y(shape, spot, op) => y_ok(shape, op, v).then_some(Want::Guard(shape, spot, op)),
        Want::Guard(shape, spot, op) => {
            guard_ok(shape, op, v).then_some(Want::NextIf(shape, spot, op, v))
        }
        Want::NextIf(shape, spot, op, guard) => {
            next_ok(spot, uses_nexts(op), v).then_some(Want::NextElse(shape, spot, op, guard))
        }
        Want::NextElse(shape, spot, op, guard) => return else_step(shape, spot, op, guard, v),
        Want::Scans(inputs) => between(1, v, MOST_SCANS).then_some(Want::Return(inputs, v)),
        Want::Return(inputs, scans) => return return_step(inputs, scans, v),
        Want::Reading(left) => return readings_left(left.saturating_sub(1)),
    };
    next.map_or(Step::NotAllowed, Step::More)
}
