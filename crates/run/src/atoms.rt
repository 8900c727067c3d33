// The atoms of a state. The tests are laid out once, and evaluated anew only after a move that changed something that
// tests see.
ghost use Rattle.std.specs.Prelude.{◌≡◌, ◌≤◌};
ghost use Rattle.controller.specs.State.{states_of};
ghost use Rattle.scan.specs.Position.{packed, atom_bytes};
ghost use Rattle.run.specs.Working.Atoms.{no_value, process_place, looks_at, equals, LaysOut, LaidOut, SeesValues, Sees, laid_atom};

use crate::course::Course;
use crate::laid::{Laid, SEEN};
use controller::Controller;
use lookups::TestRow;

// A table has at most so many tests, and a state so many atoms.
pub const TESTS: usize = 32;

// What tests see: first the variables, then the functional states of the processes, then what is found where there is
// no such variable (no value) and where there is no such process (stop).
const VARIABLES: usize = 32;

const PROCESSES: u16 = 8;

const NO_VALUE_PLACE: u8 = 40;

const STOP_PLACE: u8 = 41;

// Where a test of process i looks: it is counted from 1, and 0 is taken for 1.
#[tactic(auto, unfolding(crate::specs::Working::Atoms::process_place))]
fn process_place(i: u16) -> u8
    ensures { result ≡ process_place i }
{
    if PROCESSES < i {
        STOP_PLACE
    } else {
        VARIABLES as u8 + i.saturating_sub(1) as u8
    }
}

// Where a test looks.
#[tactic(auto, unfolding(crate::specs::Working::Atoms::looks_at))]
fn looks_at(test: TestRow) -> u8
    ensures { result ≡ looks_at test }
{
    if test.kind == 2 {
        process_place(test.a)
    } else if usize::from(test.a) < VARIABLES {
        test.a as u8
    } else {
        NO_VALUE_PLACE
    }
}

// Whether a test asks for an equal number: kinds 0 and 2.
#[tactic(auto, unfolding(crate::specs::Working::Atoms::equals))]
fn equals(test: TestRow) -> bool
    ensures { result ≡ equals test }
{
    matches!(test.kind, 0 | 2)
}

// A test, laid out.
fn laid_test(test: TestRow) -> Laid
    ensures { (result.place ≡ looks_at test) × ((result.number ≡ test.b) × (result.equal ≡ equals test)) }
{
    Laid {
        place: looks_at(test),
        number: test.b,
        equal: equals(test),
    }
}

// What is laid out where there is no test: it looks where no value is, so it never holds.
fn no_test() -> Laid
    ensures { result.place ≡ no_value }
{
    Laid {
        place: NO_VALUE_PLACE,
        number: 0,
        equal: false,
    }
}

// Test k of a table, laid out.
fn lay_out_test(table: &[u16], k: u16) -> Laid
    ensures { LaysOut table.now k result }
{
    if k < lookups::tests(table) {
        laid_test(lookups::test(table, k))
    } else {
        no_test()
    }
}

// The tests of a table, laid out.
pub fn lay_out(table: &[u16]) -> [Laid; TESTS]
    ensures { LaidOut table.now result }
{
    let mut laid = [no_test(); TESTS];
    for (k, test) in laid.iter_mut().enumerate() {
        *test = lay_out_test(table, k as u16);
    }
    laid
}

// The values of the variables as the first of what is seen. By `copy_from_slice`, which borrows the values, they are
// copied once more on the way, and a run took three hundredths longer.
fn see_values(values: [u32; VARIABLES], seen: &mut [u32; SEEN])
    ensures { SeesValues values seen.old seen.new }
{
    for (x, value) in values.iter().enumerate() {
        seen[x] = *value;
    }
}

// What tests see of a state.
fn see(c: Controller, seen: &mut [u32; SEEN])
    ensures { Sees c.variables (states_of c.processes) seen.new }
{
    see_values(c.variables, seen);
    for (i, state) in c.states().iter().enumerate() {
        seen[VARIABLES + i] = u32::from(*state);
    }
    seen[usize::from(NO_VALUE_PLACE)] = controller::NONE;
    seen[usize::from(STOP_PLACE)] = 0;
}

// The byte of the eight atoms from atom `from` on, the first the lowest digit.
fn atom_byte(laid: &[Laid; TESTS], seen: &[u32; SEEN], from: usize) -> u8
    requires { from ≤ 24 }
    ensures { result ≡ packed 8 (laid_atom laid.now seen.now) from }
{
    let mut byte: u8 = 0;
    for k in (from..from + 8).rev() {
        byte = byte * 2 + u8::from(laid[k].holds(seen));
    }
    byte
}

impl Course<'_> {
    // The bytes of the atoms of a state.
    pub fn atoms_of(&self, c: Controller) -> [u8; 4]
        ensures { result ≡ atom_bytes self.now.table.now c.variables (states_of c.processes) }
    {
        let mut seen = [0u32; SEEN];
        see(c, &mut seen);
        let low = atom_byte(&self.laid, &seen, 0);
        let second = atom_byte(&self.laid, &seen, 8);
        let third = atom_byte(&self.laid, &seen, 16);
        let high = atom_byte(&self.laid, &seen, 24);
        [low, second, third, high]
    }

    // The bytes of the atoms after a move: those before it, where tests see no change.
    pub fn atoms_after(&self, atoms: [u8; 4], old: Controller, new: Controller) -> [u8; 4]
        requires { atoms ≡ atom_bytes self.now.table.now old.variables (states_of old.processes) }
        ensures { result ≡ atom_bytes self.now.table.now new.variables (states_of new.processes) }
    {
        if old.seen_as(new) {
            atoms
        } else {
            self.atoms_of(new)
        }
    }
}
