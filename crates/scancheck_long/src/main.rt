// scancheck once more, for the gate to run on one byte more than an input may have: refusal 1 at 60,000. The bench case
// stands in front, so that a program that looked at the blocks first would find left-over bytes at 35 instead.
#![tactic(auto)]

// The same as in scancheck: the gate runs a program on one stored input, so each input has a program.
fn main(rt: HostRuntime) {
    let mut input = [0u8; program::INPUT_ROOM];
    let mut output = [0u8; program::OUTPUT_ROOM];
    program::check_input(&mut rt.stdin(), &mut rt.stdout(), &mut input, &mut output);
}
