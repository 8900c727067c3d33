// What a scan does beside its actions: guards on a state, the read, the write; and a position put into the trace.
#![tactic(auto)]

ghost use Rattle.std.specs.Prelude.{◌≡◌, ◌∷◌};
ghost use Rattle.coding.specs.Room.{over};
ghost use Rattle.controller.specs.State.{value_at, state_at, states_of};
ghost use Rattle.controller.specs.Tests.{truth};
ghost use Rattle.scan.specs.Guards.{guard_holds, next_of};
ghost use Rattle.scan.specs.Scanning.{read_of, write_of};
ghost use Rattle.lasso.specs.Bytes.{phase_number};

use controller::Controller;
use lookups::{ActionRow, TestRow};
use requirement::Phase;

// Whether a test is true of a state. A test of a process sees no variable, and one of a variable no process: only what
// it sees is fetched. It and `next_of` return early: with `if .. else` a run took longer.
#[tactic(auto, unfolding(controller::specs::Tests::truth))]
fn test_holds(test: TestRow, c: Controller) -> bool
    ensures { result ≡ truth test.kind test.b (value_at c.variables test.a) (state_at (states_of c.processes) test.a) }
{
    if test.kind == 2 {
        let state = c.process(test.a).state;
        return controller::tests::holds(test.kind, test.b, controller::NONE, state);
    }
    let value = controller::value_at(&c.variables, test.a);
    controller::tests::holds(test.kind, test.b, value, 0)
}

// Whether a guard is true: guard 0 always, guard k + 1 with test k.
#[tactic(auto, unfolding(crate::specs::Guards::guard_holds, crate::specs::Guards::test_holds))]
fn guard_holds(table: &[u16], c: Controller, guard: u16) -> bool
    ensures { result ≡ guard_holds table.now c guard }
{
    if guard == 0 {
        return true;
    }
    test_holds(lookups::test(table, guard - 1), c)
}

// Where an action's body goes on, its guard tested on this state.
#[tactic(auto, unfolding(crate::specs::Guards::next_of))]
pub fn next_of(table: &[u16], c: Controller, row: ActionRow) -> u16
    ensures { result ≡ next_of table.now c row }
{
    if guard_holds(table, c, row.guard) {
        return row.next_if;
    }
    row.next_else
}

// The state after the read of a scan, where so many scans are done before it.
pub fn read(table: &[u16], inputs: &[u16], done: u16, c: Controller) -> Controller
    ensures { result ≡ read_of table.now inputs.now done c }
{
    let n = lookups::inputs(table);
    let mut state = c.raise_timers().with_counter(1);
    for k in 0..n {
        let value = u32::from(lookups::reading(inputs, n, done, k));
        coding::set_at(&mut state.variables, usize::from(k), value);
    }
    state
}

// The state after the write.
pub fn write(table: &[u16], c: Controller) -> Controller
    ensures { result ≡ write_of table.now c }
{
    let first = usize::from(lookups::inputs(table)) + usize::from(lookups::internals(table));
    let n = lookups::outputs(table);
    let mut state = c.with_counter(0);
    for k in 0..n {
        let source = lookups::source(table, k);
        let value = controller::value_at(&state.variables, source);
        coding::set_at(&mut state.variables, first + usize::from(k), value);
    }
    state
}

// The five bytes of a position from a place on, as far as there is room: its phase and its atoms.
pub fn put_position(phase: Phase, atoms: [u8; 4], at: usize, trace: &mut [u8])
    ensures { trace.new ≡ over trace.old at (phase_number phase ∷ atoms) }
{
    if trace.len() <= at {
        return;
    }
    let bytes = [
        lasso::phase_number(phase),
        atoms[0],
        atoms[1],
        atoms[2],
        atoms[3],
    ];
    for (k, byte) in bytes.iter().enumerate() {
        coding::set_at(trace, at + k, *byte);
    }
}
