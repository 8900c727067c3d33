// scancheck as one function: an input in, the report on it out. A program over it only makes the two buffers, and lends
// them with standard input and standard output.
#![tactic(auto)]

ghost use Rattle.std.specs.Prelude.{◌≤◌, length, take};
ghost use Rattle.std.specs.Io.KnownBytes.{Consumes};
ghost use Rattle.report.specs.Printing.{Prints};
ghost use Rattle.program.specs.Program.{ReportOn, ChecksInput, WritesFront};

use std::io::{Read, Write};

// One byte more than an input may have, so that a longer one is seen to be too long.
pub const INPUT_ROOM: usize = 60001;

// No text is longer.
pub const OUTPUT_ROOM: usize = 100000;

// How many bytes were read, how many the text has, and whether all of it was written. A bool, and no Result:
// `check_input` cannot fail, and tells the two counts in either case.
#[derive(Clone, Copy)]
pub struct Checked {
    pub read: usize,
    pub length: usize,
    pub written: bool,
}

// Writes bytes until all are written, or stops at the first write that takes nothing or fails, and answers whether all
// were. (The library's `write_all` says nothing of what a failed writer got.)
fn write_full<W: Write>(writer: &mut W, bytes: &[u8]) -> bool
    ensures { WritesFront result bytes.now (W.contents writer.old) (W.contents writer.new) }
{
    let mut rest = bytes;
    while !rest.is_empty() {
        match writer.write(rest) {
            Ok(0) => return false,
            Ok(n) => rest = &rest[n..],
            Err(_) => return false,
        }
    }
    true
}

// Writes the text: the one line that hands anything to the writer, which for the program is standard output. What the
// operating system writes no promise can say; but what this function relies on, and the prover checks where it is
// called, is that these bytes are the text for the input.
fn write_text<W: Write>(writer: &mut W, input: &[u8], text: &[u8]) -> bool
    requires { ReportOn input.now text.now }
    ensures { WritesFront result text.now (W.contents writer.old) (W.contents writer.new) }
{
    write_full(writer, text)
}

// Reads an input, reports on what was read, and writes the report's text. What is left in the output buffer is promised,
// of the bytes that stand at the front of the input buffer. Where the bytes of the reader and of the writer are known,
// it is promised too that these are the reader's first, and that the writer gets the text's first, all of them if
// `written` is true. For the program the two are standard input and standard output: that the bytes are the input's, and
// that those written arrive, is then the operating system's part, of which no promise can speak.
pub fn check_input<R: Read, W: Write>(
    reader: &mut R,
    writer: &mut W,
    input: &mut [u8; INPUT_ROOM],
    output: &mut [u8; OUTPUT_ROOM],
) -> Checked
    ensures checks { ChecksInput result input.new output.old output.new }
    ensures reads { Consumes (R.remaining reader.old) (R.remaining reader.new) (take result.read input.new) }
    ensures writes { WritesFront result.written (take result.length output.new)
        (W.contents writer.old) (W.contents writer.new) }
{
    let read = records::read_full(reader, input);
    let length = report::report(&input[..read], output);
    let written = write_text(writer, &input[..read], &output[..length]);
    Checked {
        read,
        length,
        written,
    }
}
