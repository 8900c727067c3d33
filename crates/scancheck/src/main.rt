// scancheck: reads a table, inputs and a requirement from standard input, runs, judges, and prints the lines of
// document 01's bench case. All of it is `program::check_input`, whose promise says which text stands in the output
// buffer; here are only its two buffers. The gate runs it on the bench case.
#![tactic(auto)]

fn main(rt: HostRuntime) {
    let mut input = [0u8; program::INPUT_ROOM];
    let mut output = [0u8; program::OUTPUT_ROOM];
    program::check_input(&mut rt.stdin(), &mut rt.stdout(), &mut input, &mut output);
}
