// Looking things up in the numbers of a table and of an inputs record, by their place in the coding's order. An answer is what stands at that place, and 0 past
// the last number: of an output, test, process, state, action or scan that there is not it says nothing.
#![tactic(auto)]

mod places;

ghost use Rattle.std.specs.Prelude.{◌≡◌};
ghost use Rattle.lookups.specs.Places.{inputs_of, internals_of, outputs_of, source_of, tests_of, test_of, processes_of, states_of, actions_of, action_of, state_place, action_from, scans_of, return_of, reading_of};

// A test as its three numbers. The kind is a number, as the op of an action is: a look-up answers what stands there, also
// such as no table has.
#[derive(Clone, Copy)]
pub struct TestRow {
    pub kind: u16,
    pub a: u16,
    pub b: u16,
}

// An action as its six numbers, each 0 by default.
#[derive(Clone, Copy, Default)]
pub struct ActionRow {
    pub op: u16,
    pub x: u16,
    pub y: u16,
    pub guard: u16,
    pub next_if: u16,
    pub next_else: u16,
}

// How many input variables there are.
pub fn inputs(table: &[u16]) -> u16
    ensures { result ≡ inputs_of table.now }
{
    places::number(table, 0)
}

// How many internal variables there are.
pub fn internals(table: &[u16]) -> u16
    ensures { result ≡ internals_of table.now }
{
    places::number(table, 1)
}

// How many output variables there are.
pub fn outputs(table: &[u16]) -> u16
    ensures { result ≡ outputs_of table.now }
{
    places::number(table, 2)
}

// The source of output k, from 0.
#[tactic(auto, unfolding(crate::specs::Places::source_of))]
pub fn source(table: &[u16], k: u16) -> u16
    ensures { result ≡ source_of table.now k }
{
    places::number(table, 3 + usize::from(k))
}

// How many tests there are.
pub fn tests(table: &[u16]) -> u16
    ensures { result ≡ tests_of table.now }
{
    places::number(table, 3 + usize::from(outputs(table)))
}

// Test k, from 0.
#[tactic(auto, unfolding(crate::specs::Places::test_of))]
pub fn test(table: &[u16], k: u16) -> TestRow
    ensures { result ≡ test_of table.now k }
{
    let at = places::test_place(table, k);
    TestRow {
        kind: places::number(table, at),
        a: places::number(table, at + 1),
        b: places::number(table, at + 2),
    }
}

// How many processes there are.
pub fn processes(table: &[u16]) -> u16
    ensures { result ≡ processes_of table.now }
{
    places::number(table, places::processes_place(table))
}

// How many active states process p has, from 1.
pub fn states(table: &[u16], p: u16) -> u16
    ensures { result ≡ states_of table.now p }
{
    places::number(table, places::process_place(table, p))
}

// How many actions state s of process p has, from 1.
pub fn actions(table: &[u16], p: u16, s: u16) -> u16
    ensures { result ≡ actions_of table.now p s }
{
    places::number(table, places::state_place(table, p, s))
}

// Action a of state s of process p, each from 1.
#[tactic(auto, unfolding(crate::specs::Places::action_of))]
pub fn action(table: &[u16], p: u16, s: u16, a: u16) -> ActionRow
    ensures { result ≡ action_of table.now p s a }
{
    action_from(table, state_at(table, p, s), a)
}

// Where state s of process p has its count of actions; its actions follow.
pub fn state_at(table: &[u16], p: u16, s: u16) -> usize
    ensures { result ≡ state_place table.now p s }
{
    places::state_place(table, p, s)
}

// Action a, from 1, of the state that has its count of actions at a place.
#[tactic(auto, unfolding(crate::specs::Places::action_from), using(crate::proofs::Past::none_there))]
pub fn action_from(table: &[u16], state: usize, a: u16) -> ActionRow
    ensures { result ≡ action_from table.now state a }
{
    if table.len() <= state {
        ActionRow::default()
    } else {
        let at = state + 1 + 6 * usize::from(a.saturating_sub(1));
        places::row_from(table, at)
    }
}

// How many scans an inputs record has.
pub fn scans(recorded: &[u16]) -> u16
    ensures { result ≡ scans_of recorded.now }
{
    places::number(recorded, 0)
}

// The scan to which the run returns.
pub fn return_scan(recorded: &[u16]) -> u16
    ensures { result ≡ return_of recorded.now }
{
    places::number(recorded, 1)
}

// What variable k of so many input variables takes when so many scans are done.
#[tactic(auto, unfolding(crate::specs::Places::reading_of))]
pub fn reading(recorded: &[u16], inputs: u16, done: u16, k: u16) -> u16
    ensures { result ≡ reading_of recorded.now inputs done k }
{
    let before = usize::from(inputs) * usize::from(done);
    places::number(recorded, 2 + before + usize::from(k))
}
