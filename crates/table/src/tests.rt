// The second look at a table: kind 2's a and b, which name a process and one of its states.
ghost use Rattle.std.specs.Prelude.{◌≡◌, get_or, Ok};
ghost use Rattle.table.specs.Table.{table_start, state_ok, fine_if, test_says, tests_from};

use crate::Role;
use coding::{Answer, Cause, Source};
use ranges::{Step, Want};

// What the second look says of a number: fine, wrong, or that all the tests are behind.
// An enum of its own: there are three answers, where Option and Result have two.
#[derive(Clone, Copy)]
pub enum Ruling {
    Fine,
    Wrong,
    Behind,
}

fn fine_if(ok: bool) -> Ruling
    ensures { result ≡ fine_if ok }
{
    if ok { Ruling::Fine } else { Ruling::Wrong }
}

// Whether b is stop, err or one of so many active states.
#[tactic(auto, unfolding(crate::specs::Table::state_ok))]
fn state_ok(states: u16, b: u16) -> bool
    ensures { result ≡ state_ok states b }
{
    b == ranges::ERR_STATE || b <= states
}

fn count_at(counts: &[u16], i: u16) -> u16
    ensures { result ≡ get_or counts.now i 0 }
{
    counts.get(usize::from(i)).copied().unwrap_or(0)
}

fn test_says(counts: &[u16], role: Role, v: u16) -> Ruling
    ensures { result ≡ test_says counts.now role v }
{
    match role {
        Role::OfTestA(2) => fine_if(ranges::allowed::between(1, v, count_at(counts, 0))),
        Role::OfTestB(2, a) => fine_if(state_ok(count_at(counts, a), v)),
        Role::ProcessCount | Role::StateCount(_) => Ruling::Behind,
        Role::OfTestA(_) | Role::OfTestB(_, _) | Role::Other => Ruling::Fine,
    }
}

// The tests of a source of which everything else is accepted, with so many numbers.
pub fn second_look<S: Source>(most: u16, counts: &[u16], accepted: usize, source: S) -> Answer
    ensures { result ≡ tests_from most counts.now table_start ((S.places source).code 0) (Ok accepted) }
{
    let mut want = Want::Inputs;
    let mut at: usize = 0;
    // No `for`: where the next number stands shows only when this one is read, so there is no index to range over.
    while let Ok(number) = source.number_at(at) {
        match test_says(counts, crate::role_of(want), number.value) {
            Ruling::Wrong => {
                return Err(Cause::NotAllowed.at(at));
            }
            Ruling::Behind => {
                return Ok(accepted);
            }
            Ruling::Fine => {}
        }
        let Step::More(more) = ranges::advance(most, want, number.value) else {
            return Ok(accepted);
        };
        want = more;
        at = number.next;
    }
    Ok(accepted)
}
