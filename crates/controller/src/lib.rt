// The controller of a hyperprocess: the state goes in by value, one action is done, and the state comes out.
#![tactic(auto)]

mod rules;
mod same;
pub mod tests;

ghost use Rattle.std.specs.Prelude.{◌≡◌, ◌-◌, set};
ghost use Rattle.ranges.specs.Limits.{most_processes};
ghost use Rattle.controller.specs.State.{start, value_at, record_at, with_record, states_of, all_raised};
ghost use Rattle.controller.specs.Rules.{act_of};
ghost use Rattle.controller.specs.Actions.{action_of};
ghost use Rattle.controller.specs.Same.{same_state};
ghost use Rattle.controller.specs.Seen.{same_seen};

use rules::Parts;

// No value, and no timer: above every number of the coding. It stays a number, and no Option: the promises of
// `compares`, `value_at` and `act` hold of every u32, where an Option would ask more of callers, and values lie in
// arrays of u32 that callers lend.
pub const NONE: u32 = 65536;

// How many variables and how many processes a controller has room for.
const VARIABLES: usize = 32;

const PROCESSES: usize = 8;

// A process: its functional state (0 stop, 1 upward active, 255 err), its action counter (0 past the end of the body)
// and its timer. They are numbers, since `act` promises of any state, also of such as no run reaches.
#[derive(Clone, Copy, PartialEq, Eq, Debug)]
pub struct Process {
    pub state: u16,
    pub action: u16,
    pub timer: u32,
}

// The state: each variable's value, each process's record and the process counter.
#[derive(Clone, Copy, PartialEq, Eq, Debug)]
pub struct Controller {
    pub variables: [u32; VARIABLES],
    pub processes: [Process; PROCESSES],
    pub counter: u16,
}

// An update of a variable: by a number, by another variable, or by its own value plus a number.
#[derive(Clone, Copy, PartialEq, Eq, Debug)]
pub enum Update {
    Constant(u16),
    Copy(u16),
    Add(u16),
}

// An action: the two implied ones, then ops 1 to 12.
#[derive(Clone, Copy, PartialEq, Eq, Debug)]
pub enum Action {
    Skip,
    End,
    Updates(u16, Update),
    Tout(u16),
    Reset,
    StartP(u16),
    StopP(u16),
    Start,
    Set(u16),
    Next,
    Stop,
    Err,
}

// What an action comes to for the turn: the process keeps it, passes it on, or has no rule for the action.
#[derive(Clone, Copy, PartialEq, Eq, Debug)]
pub enum Outcome {
    Stays,
    Passes,
    NoRule,
}

// What a rule makes of the variables, the acting process's record and the record of the other process that the action
// names: the three of `Parts`, each a field of its own, as the definition `rule_of` names them.
#[derive(Clone, Copy, PartialEq, Eq, Debug)]
pub struct Done {
    pub outcome: Outcome,
    pub variables: [u32; VARIABLES],
    pub own: Process,
    pub other: Process,
}

// What one action makes of the whole state.
#[derive(Clone, Copy, PartialEq, Eq, Debug)]
pub struct Acted {
    pub outcome: Outcome,
    pub state: Controller,
}

// The value of variable x; none where there is no such variable.
#[tactic(auto, unfolding(crate::specs::State::value_at))]
pub fn value_at(variables: &[u32], x: u16) -> u32
    ensures { result ≡ value_at variables.now x }
{
    variables.get(usize::from(x)).copied().unwrap_or(NONE)
}

// The place of process i, which is counted from 1.
fn slot(i: u16) -> usize
    ensures { result ≡ i - 1 }
{
    usize::from(i).saturating_sub(1)
}

// The action that the numbers op, x and y code. They are numbers since its promise is on any three, also on such as
// code no action.
#[tactic(auto, unfolding(crate::specs::Actions::action_of))]
pub fn action_of(op: u16, x: u16, y: u16) -> Action
    ensures { result ≡ action_of op x y }
{
    match op {
        1 => Action::Updates(x, Update::Constant(y)),
        2 => Action::Updates(x, Update::Copy(y)),
        3 => Action::Updates(x, Update::Add(y)),
        4 => Action::Tout(x),
        5 => Action::Reset,
        6 => Action::StartP(x),
        7 => Action::StopP(x),
        8 => Action::Start,
        9 => Action::Set(x),
        10 => Action::Next,
        11 => Action::Stop,
        _ => Action::Err,
    }
}

// The state before the first read.
#[tactic(auto, unfolding(crate::specs::State::start))]
pub fn at_start() -> Controller
    ensures { result ≡ start most_processes }
{
    let mut processes = [Process::stopped(); PROCESSES];
    processes[0] = Process::entering(1, 1);
    Controller {
        variables: [NONE; VARIABLES],
        processes,
        counter: 0,
    }
}

impl Controller {
    // The record of process i, from 1; 0 is taken for 1; stopped past the last.
    #[tactic(auto, unfolding(crate::specs::State::record_at))]
    pub fn process(self, i: u16) -> Process
        ensures { result ≡ record_at self.processes i }
    {
        self.processes
            .get(slot(i))
            .copied()
            .unwrap_or(Process::stopped())
    }

    // The state with a record for process i.
    #[tactic(auto, unfolding(crate::specs::State::with_record))]
    fn with_process(self, i: u16, p: Process) -> Controller
        ensures { result ≡ record self { processes = with_record self.processes i p } }
    {
        let mut c = self;
        coding::set_at(&mut c.processes, slot(i), p);
        c
    }

    // One action of process i; `next` is where its body goes on.
    #[tactic(auto, unfolding(crate::specs::Rules::act_of))]
    pub fn act(self, i: u16, action: Action, next: u16) -> Acted
        ensures { result ≡ act_of i action next self }
    {
        let named = rules::named_by(action, i);
        let variables = self.variables;
        let parts = Parts {
            variables,
            own: self.process(i),
            other: self.process(named),
        };
        let done = parts.rule_of(action, next);
        let state = self
            .with_process(named, done.other)
            .with_process(i, done.own);
        let variables = done.variables;
        let counter = rules::counter_after(done.outcome, self.counter);
        Acted {
            outcome: done.outcome,
            state: Controller {
                variables,
                counter,
                ..state
            },
        }
    }

    // The state with every running timer up by 1.
    pub fn raise_timers(self) -> Controller
        ensures { result ≡ record { variables = self.variables; processes = all_raised self.processes; counter = self.counter } }
    {
        let processes = self.processes.map(Process::raised);
        Controller { processes, ..self }
    }

    // The functional states of the processes.
    pub fn states(self) -> [u16; PROCESSES]
        ensures { result ≡ states_of self.processes }
    {
        self.processes.map(|process| process.state)
    }

    // The state with another counter.
    pub fn with_counter(self, counter: u16) -> Controller
        ensures { result ≡ record { variables = self.variables; processes = self.processes; counter = counter } }
    {
        Controller { counter, ..self }
    }

    // Whether two states are the same to tests: in their values and functional states.
    pub fn seen_as(self, other: Controller) -> bool
        ensures { result ≡ same_seen self other }
    {
        same::all_same(&self.variables, &other.variables)
            && same::all_same(&self.states(), &other.states())
    }

    // Whether two states are the same.
    pub fn same_as(self, other: Controller) -> bool
        ensures { result ≡ same_state self other }
    {
        self == other
    }
}
