// What a record has most of, gone over quickly: the actions of a body and the readings of inputs. The last of them is left to the look itself, since something else may
// come after it; and so is a number at fault, since the look says what is refused and where.
ghost use Rattle.std.specs.Prelude.{◌≡◌, ◌<◌, ◌≤◌, true, IfSome, Ok};
ghost use Rattle.table.specs.Working.Skipping.{Passes, Taken};

use coding::{Number, Source};
use ranges::{Shape, Spot, Want, allowed};

// Where the look stands: what is wanted, at which place, after how many numbers.
#[derive(Clone, Copy)]
pub struct Stand {
    pub want: Want,
    pub at: usize,
    pub count: usize,
}

// The number at a place, if there is one and it is allowed.
fn take<S: Source, F: FnOnce(u16) -> bool>(source: S, at: usize, is_allowed: F) -> Option<Number>
    requires { F.IsAlwaysCallable is_allowed }
    ensures { IfSome result (λ number. (Ok number ≡ (S.places source).number at) × F.post is_allowed number.value true) }
{
    let number = source.number_at(at).ok()?;
    if is_allowed(number.value) {
        Some(number)
    } else {
        None
    }
}

// The six numbers of an action that is not the last of its body: the place after them.
fn take_action<S: Source>(shape: Shape, spot: Spot, source: S, at: usize) -> Option<usize>
    requires { spot.action < spot.actions }
    ensures { IfSome result (λ next. Taken (S.places source) shape spot at next) }
{
    let op = take(source, at, |v| allowed::op_ok(spot, v))?;
    let x = take(source, op.next, |v| allowed::x_ok(shape, spot, op.value, v))?;
    let y = take(source, x.next, |v| allowed::y_ok(shape, op.value, v))?;
    let guard = take(source, y.next, |v| allowed::guard_ok(shape, op.value, v))?;
    let if_used = allowed::uses_nexts(op.value);
    let next_if = take(source, guard.next, |v| allowed::next_ok(spot, if_used, v))?;
    let else_used = allowed::uses_else(op.value, guard.value);
    let next_else = take(
        source,
        next_if.next,
        |v| allowed::next_ok(spot, else_used, v),
    )?;
    Some(next_else.next)
}

// From an action on to the last of its body, or to one with a fault.
fn skip_actions<S: Source>(shape: Shape, spot: Spot, source: S, from: usize, behind: usize) -> Stand
    requires { behind ≤ from }
    ensures { Passes (S.places source) (Want.Op shape spot) from behind result.want result.at result.count }
{
    let mut here = spot;
    let mut at = from;
    let mut count = behind;
    // No `for`: the spot goes on within the stand, and stays where a fault ends the loop.
    while here.action < here.actions {
        let Some(next) = take_action(shape, here, source, at) else {
            break;
        };
        here.action += 1;
        at = next;
        count += 6;
    }
    Stand {
        want: Want::Op(shape, here),
        at,
        count,
    }
}

// From a reading on to the last, or to one with a fault.
fn skip_readings<S: Source>(readings: usize, source: S, from: usize, behind: usize) -> Stand
    requires { behind ≤ from }
    ensures { Passes (S.places source) (Want.Reading readings) from behind result.want result.at result.count }
{
    let mut left = readings;
    let mut at = from;
    let mut count = behind;
    // No `for`: how many are left is part of the stand, and stays where a fault ends the loop.
    while 1 < left {
        let Ok(number) = source.number_at(at) else {
            break;
        };
        left -= 1;
        at = number.next;
        count += 1;
    }
    Stand {
        want: Want::Reading(left),
        at,
        count,
    }
}

// From where the look stands as far on as nothing is at fault, nothing is to be kept and the end is not reached.
pub fn skip<S: Source>(want: Want, source: S, at: usize, count: usize) -> Stand
    requires { count ≤ at }
    ensures { Passes (S.places source) want at count result.want result.at result.count }
{
    match want {
        Want::Op(shape, spot) => skip_actions(shape, spot, source, at, count),
        Want::Reading(left) => skip_readings(left, source, at, count),
        _ => Stand { want, at, count },
    }
}
