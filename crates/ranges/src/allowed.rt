// Which value each number of a table may have, once those before it are known. Op, kind and guard are numbers here: each
// promise is on any, and docs/PROMISES.md names the functions.
ghost use Rattle.std.specs.Prelude.{◌≡◌};
ghost use Rattle.ranges.specs.Values.{within, total_ok, is_internal, is_variable, test_a_ok, op_ok, x_ok, y_ok, uses_nexts, guard_ok, uses_else, next_ok};

use crate::{LONGEST_BOUND, MOST_VARIABLES, Shape, Spot};

#[tactic(auto, unfolding(crate::specs::Values::within))]
pub fn between(lo: u16, v: u16, hi: u16) -> bool
    ensures { result ≡ within lo v hi }
{
    (lo..=hi).contains(&v)
}

// A further count of variables, where a and b are counted.
#[tactic(auto, unfolding(crate::specs::Values::total_ok))]
pub fn total_ok(a: u16, b: u16, c: u16) -> bool
    ensures { result ≡ total_ok a b c }
{
    u32::from(a) + u32::from(b) + u32::from(c) <= u32::from(MOST_VARIABLES)
}

#[tactic(auto, unfolding(crate::specs::Values::is_internal))]
pub fn is_internal(shape: Shape, v: u16) -> bool
    ensures { result ≡ is_internal shape v }
{
    let first = u32::from(shape.inputs);
    (first..first + u32::from(shape.internals)).contains(&u32::from(v))
}

#[tactic(auto, unfolding(crate::specs::Values::is_variable))]
pub fn is_variable(shape: Shape, v: u16) -> bool
    ensures { result ≡ is_variable shape v }
{
    u32::from(v) < u32::from(shape.inputs) + u32::from(shape.internals) + u32::from(shape.outputs)
}

#[tactic(auto, unfolding(crate::specs::Values::test_a_ok))]
pub fn test_a_ok(shape: Shape, kind: u16, v: u16) -> bool
    ensures { result ≡ test_a_ok shape kind v }
{
    kind == 2 || is_variable(shape, v)
}

#[tactic(auto, unfolding(crate::specs::Values::op_ok))]
pub fn op_ok(spot: Spot, v: u16) -> bool
    ensures { result ≡ op_ok spot v }
{
    match v {
        10 => spot.state < spot.states,
        _ => between(1, v, 12),
    }
}

#[tactic(auto, unfolding(crate::specs::Values::x_ok, crate::specs::Values::within))]
pub fn x_ok(shape: Shape, spot: Spot, op: u16, v: u16) -> bool
    ensures { result ≡ x_ok shape spot op v }
{
    match op {
        1..=3 => is_internal(shape, v),
        4 => between(1, v, LONGEST_BOUND),
        6 | 7 => v != spot.process && between(1, v, shape.processes),
        9 => between(1, v, spot.states),
        _ => v == 0,
    }
}

#[tactic(auto, unfolding(crate::specs::Values::y_ok, crate::specs::Values::within))]
pub fn y_ok(shape: Shape, op: u16, v: u16) -> bool
    ensures { result ≡ y_ok shape op v }
{
    match op {
        1 | 3 => true,
        2 => is_variable(shape, v),
        _ => v == 0,
    }
}

#[tactic(auto, unfolding(crate::specs::Values::uses_nexts, crate::specs::Values::within))]
pub fn uses_nexts(op: u16) -> bool
    ensures { result ≡ uses_nexts op }
{
    matches!(op, 1..=4 | 6 | 7)
}

#[tactic(auto, unfolding(crate::specs::Values::guard_ok))]
pub fn guard_ok(shape: Shape, op: u16, v: u16) -> bool
    ensures { result ≡ guard_ok shape op v }
{
    let most = if uses_nexts(op) { shape.tests } else { 0 };
    v <= most
}

#[tactic(auto, unfolding(crate::specs::Values::uses_else))]
pub fn uses_else(op: u16, guard: u16) -> bool
    ensures { result ≡ uses_else op guard }
{
    guard != 0 && uses_nexts(op)
}

// `used` stays beside the number: docs/PROMISES.md names this function, and the definition next_ok takes it.
#[tactic(auto, unfolding(crate::specs::Values::next_ok))]
pub fn next_ok(spot: Spot, used: bool, v: u16) -> bool
    ensures { result ≡ next_ok spot used v }
{
    let most = if used { spot.actions } else { 0 };
    v <= most
}
