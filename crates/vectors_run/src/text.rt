// What is printed of an answer and of the buffer that was lent.
use run::{Closed, Stop};
use std::io;
use std::io::Write;

// The size of the buffer, the most room that is lent.
pub const ROOM: usize = 20500;

// Of a trace so many positions are printed, each of 5 bytes.
const SHOWN: usize = 16;

// The answer of a run, with the first positions of its trace.
pub fn say_ran<W: Write>(
    out: &mut W,
    answer: Result<Closed, Stop>,
    trace: &[u8; ROOM],
) -> io::Result<()> {
    match answer {
        Ok(Closed { positions, start }) => {
            write!(out, ": closed {positions} loop {start}, trace")?;
            say_positions(out, trace, positions.min(SHOWN))
        }
        Err(Stop::Halted(cause, scan, process)) => {
            let number = coding::number_of(cause);
            write!(out, ": halted {number} at {scan} process {process}")
        }
        Err(Stop::Refused(why)) => records::say_refused(out, why),
    }
}

// The first n positions, each a space and two digits a byte.
fn say_positions<W: Write>(out: &mut W, trace: &[u8], n: usize) -> io::Result<()> {
    let (positions, _) = trace.as_chunks::<5>();
    for [a, b, c, d, e] in positions.iter().take(n) {
        write!(out, " {a:02x}{b:02x}{c:02x}{d:02x}{e:02x}")?;
    }
    Ok(())
}
