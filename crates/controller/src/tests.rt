// The tests of a table, on what they need of the state.
ghost use Rattle.std.specs.Prelude.{◌≡◌};
ghost use Rattle.controller.specs.Tests.{compares, truth};

use crate::NONE;

// Whether a value is equal to the number b, or else whether it exceeds it. Neither is true of an unset one. `equal` is
// a flag, as the promise has it. It returns early: with `if .. else` here and in the rules a run took longer.
#[tactic(auto, unfolding(crate::specs::Tests::compares))]
pub fn compares(equal: bool, b: u32, value: u32) -> bool
    ensures { result ≡ compares equal b value }
{
    if value == NONE {
        return false;
    }
    if equal {
        return value == b;
    }
    b < value
}

// Whether a test of this kind with this b is true, where variable a has this value and process a is in this state. The
// kind is a number since the promise is on any, also on such as no table has.
#[tactic(auto, unfolding(crate::specs::Tests::truth))]
pub fn holds(kind: u16, b: u16, value: u32, state: u16) -> bool
    ensures { result ≡ truth kind b value state }
{
    if kind == 2 {
        state == b
    } else {
        compares(kind == 0, u32::from(b), value)
    }
}
