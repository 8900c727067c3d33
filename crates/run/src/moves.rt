// One move of the run: a read, an action or a write.
ghost use Rattle.std.specs.Prelude.{◌≡◌, ◌+◌, ◌<◌};
ghost use Rattle.run.specs.Moves.{active, step_of, used_after, too_long, unruled, action_move};
ghost use Rattle.run.specs.Running.{recorded_move};

use crate::course::Course;
use crate::{Machine, Moved};
use coding::Cause;
use controller::{Acted, Action, Controller, Outcome};
use requirement::Phase;

// The most actions of a turn.
const LONGEST_TURN: u16 = 64;

// Whether a functional state is active.
#[tactic(auto, unfolding(crate::specs::Moves::active))]
fn active(f: u16) -> bool
    ensures { result ≡ active f }
{
    f != 0 && f != ranges::ERR_STATE
}

// How many actions of the turn are done after one more: none of the next turn, where it passes.
fn used_after(outcome: Outcome, used: u16) -> u16
    requires { used < 65535 }
    ensures { result ≡ used_after outcome used }
{
    match outcome {
        Outcome::Stays => used + 1,
        Outcome::Passes => 0,
        Outcome::NoRule => used,
    }
}

// Whether a turn of so many actions is at its end.
#[tactic(auto, unfolding(crate::specs::Moves::too_long))]
fn too_long(used: u16) -> Option<Cause>
    ensures { result ≡ too_long used }
{
    (LONGEST_TURN <= used).then_some(Cause::LongTurn)
}

// Whether there is no rule for an action.
fn unruled(outcome: Outcome) -> Option<Cause>
    ensures { result ≡ unruled outcome }
{
    match outcome {
        Outcome::NoRule => Some(Cause::NoRule),
        Outcome::Stays | Outcome::Passes => None,
    }
}

impl Course<'_> {
    // The action of process i.
    fn step(&self, i: u16, c: Controller) -> Acted
        ensures { result ≡ step_of self.now.table.now i c }
    {
        let p = c.process(i);
        let f = p.state;
        let a = p.action;
        if !active(f) {
            c.act(i, Action::Skip, 0)
        } else if a == 0 {
            c.act(i, Action::End, 0)
        } else {
            let state = self.place_of(i, f);
            let row = lookups::action_from(self.table, state, a);
            let next = scan::next_of(self.table, c, row);
            c.act(i, controller::action_of(row.op, row.x, row.y), next)
        }
    }

    // An action of the process whose turn it is. A turn that is too long is looked for before an action that has no
    // rule.
    fn action_move(&self, m: Machine) -> Moved
        ensures { result ≡ action_move self.now.table.now m }
    {
        let acted = self.step(m.state.counter, m.state);
        let outcome = acted.outcome;
        match too_long(m.used).or(unruled(outcome)) {
            Some(cause) => Moved {
                stopped: Some(cause),
                machine: m,
            },
            None => {
                let used = used_after(outcome, m.used);
                let state = acted.state;
                let machine = Machine {
                    phase: Phase::Exe,
                    state,
                    used,
                    ..m
                };
                Moved {
                    stopped: None,
                    machine,
                }
            }
        }
    }

    // The move that the counter tells.
    #[tactic(auto, unfolding(crate::specs::Moves::move_of))]
    pub fn make_move(&self, m: Machine) -> Moved
        requires { m.scan < 65535 }
        ensures { result ≡ recorded_move self.now.table.now self.now.inputs.now m }
    {
        let c = m.state;
        if c.counter == 0 {
            let machine = Machine {
                phase: Phase::Input,
                state: scan::read(self.table, self.inputs, m.scan, c),
                used: 0,
                ..m
            };
            Moved {
                stopped: None,
                machine,
            }
        } else if lookups::processes(self.table) < c.counter {
            let machine = Machine {
                phase: Phase::Output,
                state: scan::write(self.table, c),
                used: 0,
                scan: m.scan + 1,
            };
            Moved {
                stopped: None,
                machine,
            }
        } else {
            self.action_move(m)
        }
    }
}
