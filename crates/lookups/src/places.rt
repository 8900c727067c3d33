// Where things stand in the numbers of a table. The bounds keep the sums within their type.
ghost use Rattle.std.specs.Prelude.{◌≡◌, ℕ, ◌+◌, ◌-◌, ◌*◌, ◌^◌, ◌≤◌, ◌<◌, length, get_or};
ghost use Rattle.lookups.specs.Places.{test_place, processes_place, after_states, after_processes, process_place, state_place, row_from};

use crate::ActionRow;

// The number at a place, 0 past the end.
pub fn number(table: &[u16], at: usize) -> u16
    ensures { result ≡ get_or table.now at 0 }
{
    table.get(at).copied().unwrap_or(0)
}

// Where test k begins.
pub fn test_place(table: &[u16], k: u16) -> usize
    ensures { (result ≡ test_place table.now k) × (result < 300000) }
{
    let outputs = usize::from(number(table, 2));
    4 + outputs + 3 * usize::from(k)
}

// Where the count of processes stands.
pub fn processes_place(table: &[u16]) -> usize
    ensures { (result ≡ processes_place table.now) × (result < 300000) }
{
    let outputs = usize::from(number(table, 2));
    let tests = number(table, 3 + outputs);
    test_place(table, tests)
}

// The place after k states, from the place of the first one's count on.
#[tactic(auto, using(crate::proofs::Passed::pass_state, crate::proofs::Passed::no_states))]
fn after_states(table: &[u16], from: usize, k: u16) -> usize
    requires { from < 2 ^ 56 }
    ensures { (result ≡ after_states table.now k from) × (result ≤ from + 393211 * k) }
{
    let mut at = from;
    for _ in 0..k {
        let actions = usize::from(number(table, at));
        at = at + 1 + 6 * actions;
    }
    at
}

// The place after k processes, from the place of the first one's count on.
#[tactic(auto, using(crate::proofs::Passed::pass_process, crate::proofs::Passed::no_processes))]
fn after_processes(table: &[u16], from: usize, k: u16) -> usize
    requires { from < 2 ^ 40 }
    ensures { (result ≡ after_processes table.now k from) × (result ≤ from + 2 ^ 35 * k) }
{
    let mut at = from;
    for _ in 0..k {
        let states = number(table, at);
        at = after_states(table, at + 1, states);
    }
    at
}

// Where process p has its count of states.
#[tactic(auto, unfolding(crate::specs::Places::process_place))]
pub fn process_place(table: &[u16], p: u16) -> usize
    ensures { (result ≡ process_place table.now p) × (result < 2 ^ 52) }
{
    let from = processes_place(table) + 1;
    after_processes(table, from, p.saturating_sub(1))
}

// Where state s of process p has its count of actions.
#[tactic(auto, unfolding(crate::specs::Places::state_place))]
pub fn state_place(table: &[u16], p: u16, s: u16) -> usize
    ensures { (result ≡ state_place table.now p s) × (result < 2 ^ 57) }
{
    let from = process_place(table, p) + 1;
    after_states(table, from, s.saturating_sub(1))
}

// The six numbers from a place on.
#[tactic(auto, unfolding(crate::specs::Places::row_from))]
pub fn row_from(table: &[u16], at: usize) -> ActionRow
    requires { at < 2 ^ 63 + 2 ^ 20 }
    ensures { result ≡ row_from table.now at }
{
    ActionRow {
        op: number(table, at),
        x: number(table, at + 1),
        y: number(table, at + 2),
        guard: number(table, at + 3),
        next_if: number(table, at + 4),
        next_else: number(table, at + 5),
    }
}
