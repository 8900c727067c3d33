// scancheck once more, for the gate to run on an input that is refused. The table's one process waits a scan (tout,
// bound 1) and then resets the timer that has just been cleared, for which there is no rule: refusal 5 in scan 2. The
// requirement, an unknown tag, is not read any more.
#![tactic(auto)]

// The same as in scancheck: the gate runs a program on one stored input, so each input has a program.
fn main(rt: HostRuntime) {
    let mut input = [0u8; program::INPUT_ROOM];
    let mut output = [0u8; program::OUTPUT_ROOM];
    program::check_input(&mut rt.stdin(), &mut rt.stdout(), &mut input, &mut output);
}
