// The rules of the actions, over values.
ghost use Rattle.std.specs.Prelude.{◌≡◌, set};
ghost use Rattle.controller.specs.State.{up, goes, timed, entering, stopped, raised};
ghost use Rattle.controller.specs.Rules.{stays, new_value, updated, waited, restarted, rule_of};
ghost use Rattle.controller.specs.Rules.{named_by, counter_after};

use crate::Outcome::{NoRule, Passes, Stays};
use crate::{Action, Done, NONE, Outcome, Process, Update, VARIABLES, value_at};

// One more, staying at the highest number of 16 bits.
#[tactic(auto, unfolding(crate::specs::State::up))]
fn up(n: u16) -> u16
    ensures { result ≡ up n }
{
    n.saturating_add(1)
}

impl Process {
    // A process that enters a state at an action, without a timer.
    #[tactic(auto, unfolding(crate::specs::State::entering))]
    pub(crate) fn entering(state: u16, action: u16) -> Process
        ensures { result ≡ entering state action }
    {
        Process {
            state,
            action,
            timer: NONE,
        }
    }

    // A stopped process.
    pub(crate) fn stopped() -> Process
        ensures { result ≡ stopped }
    {
        Process::entering(0, 0)
    }

    // The process at action k of its state.
    #[tactic(auto, unfolding(crate::specs::State::goes))]
    fn goes(self, k: u16) -> Process
        ensures { result ≡ goes self k }
    {
        Process { action: k, ..self }
    }

    // The process with its timer at t.
    #[tactic(auto, unfolding(crate::specs::State::timed))]
    fn timed(self, t: u32) -> Process
        ensures { result ≡ timed self t }
    {
        Process { timer: t, ..self }
    }

    // The process after a read: its timer up by 1 if it runs, staying at the highest number of 16 bits. No timer is a
    // number above that, and stays.
    #[tactic(auto, unfolding(crate::specs::State::raised, crate::specs::State::up, crate::specs::State::timed))]
    pub(crate) fn raised(self) -> Process
        ensures { result ≡ raised self }
    {
        let t = self.timer;
        if t < 65535 {
            return self.timed(t + 1);
        }
        self
    }
}

// What a rule is over, and makes others of: the variables, the record of the process that acts and the record of the
// other process that the action names.
#[derive(Clone, Copy)]
pub struct Parts {
    pub variables: [u32; VARIABLES],
    pub own: Process,
    pub other: Process,
}

impl Parts {
    // The value that an update gives variable x.
    fn new_value(self, x: u16, update: Update) -> u32
        ensures { result ≡ new_value self.variables x update }
    {
        match update {
            Update::Constant(d) => u32::from(d),
            Update::Copy(y) => value_at(&self.variables, y),
            Update::Add(d) => {
                let old = value_at(&self.variables, x);
                if old == NONE {
                    return NONE;
                }
                (old % 65536 + u32::from(d)) % 65536
            }
        }
    }

    // Variable x has another value, where there is such a variable.
    fn with_value(self, x: u16, value: u32) -> Parts
        ensures { result ≡ record self { variables = set self.variables x value } }
    {
        let mut variables = self.variables;
        coding::set_at(&mut variables, usize::from(x), value);
        Parts { variables, ..self }
    }

    // The process that acts has another record.
    fn with_own(self, own: Process) -> Parts
        ensures { result ≡ record self { own = own } }
    {
        Parts { own, ..self }
    }

    // The process that the action names has another record.
    fn with_other(self, other: Process) -> Parts
        ensures { result ≡ record self { other = other } }
    {
        Parts { other, ..self }
    }

    // The rule is done, and comes to this for the turn.
    fn done(self, outcome: Outcome) -> Done
        ensures { result
            ≡ record { outcome = outcome; variables = self.variables; own = self.own; other = self.other } }
    {
        let variables = self.variables;
        Done {
            outcome,
            variables,
            own: self.own,
            other: self.other,
        }
    }

    // Variable x takes its new value, and the body goes on at k.
    #[tactic(auto, unfolding(crate::specs::Rules::updated))]
    fn updated(self, x: u16, update: Update, k: u16) -> Done
        ensures { result ≡ updated x update k self.variables self.own self.other }
    {
        let value = self.new_value(x, update);
        self.with_value(x, value)
            .with_own(self.own.goes(k))
            .done(Stays)
    }

    // tout: the timer is started, waited for, or has elapsed. It returns early, as `restarted` does: with `if .. else`
    // in the rules, `compares` and the guards a run took a tenth longer.
    #[tactic(auto, unfolding(crate::specs::Rules::waited, crate::specs::Rules::elapsed))]
    fn waited(self, bound: u16, k: u16) -> Done
        ensures { result ≡ waited bound k self.variables self.own self.other }
    {
        let t = self.own.timer;
        let bound = u32::from(bound);
        if t == NONE {
            return self.with_own(self.own.goes(1).timed(0)).done(Passes);
        }
        if t < bound {
            return self.with_own(self.own.goes(1)).done(Passes);
        }
        if t == bound {
            return self.with_own(self.own.goes(k).timed(NONE)).done(Stays);
        }
        self.done(NoRule)
    }

    // reset: the timer, if it runs, is started anew.
    #[tactic(auto, unfolding(crate::specs::Rules::restarted))]
    fn restarted(self) -> Done
        ensures { result ≡ restarted self.variables self.own self.other }
    {
        if self.own.timer == NONE {
            return self.done(NoRule);
        }
        self.with_own(self.own.goes(1).timed(0)).done(Passes)
    }

    // set, start and next: the process enters state f at its first action, and keeps the turn.
    fn enters(self, f: u16) -> Done
        ensures { result ≡ stays self.variables (entering f 1) self.other }
    {
        self.with_own(Process::entering(f, 1)).done(Stays)
    }

    // The rule of an action; its body goes on at k.
    pub fn rule_of(self, action: Action, k: u16) -> Done
        ensures { result ≡ rule_of action k self.variables self.own self.other }
    {
        let own = self.own;
        let gone = self.with_own(own.goes(k));
        match action {
            Action::Skip => self.done(Passes),
            Action::End => self.with_own(own.goes(1)).done(Passes),
            Action::Updates(x, update) => self.updated(x, update, k),
            Action::Tout(bound) => self.waited(bound, k),
            Action::Reset => self.restarted(),
            Action::StartP(_) => gone.with_other(Process::entering(1, 1)).done(Stays),
            Action::StopP(_) => gone.with_other(Process::stopped()).done(Stays),
            Action::Start => self.enters(1),
            Action::Set(j) => self.enters(j),
            Action::Next => self.enters(up(own.state)),
            Action::Stop => self.with_own(Process::stopped()).done(Stays),
            Action::Err => self
                .with_own(Process::entering(ranges::ERR_STATE, 0))
                .done(Stays),
        }
    }
}

// The other process that an action of process i names; i itself where it names none.
pub fn named_by(action: Action, i: u16) -> u16
    ensures { result ≡ named_by action i }
{
    match action {
        Action::StartP(x) | Action::StopP(x) => x,
        _ => i,
    }
}

// The counter after an action.
pub fn counter_after(outcome: Outcome, counter: u16) -> u16
    ensures { result ≡ counter_after outcome counter }
{
    match outcome {
        Passes => up(counter),
        _ => counter,
    }
}
