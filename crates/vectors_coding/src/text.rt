// What is printed of an answer and of the buffer that was lent.
use coding::{Answer, Number, Refusal, Span};
use records::{checksum, say_refused};
use requirement::Checked;
use std::io;
use std::io::Write;
use std::ops::Range;

// The size of the buffers, the most room that is lent.
pub const ROOM: usize = 8000;

// Of a row of more than 40 numbers so many are printed at each end.
const ENDS: usize = 20;

// The number that was read, and the place after it.
pub fn say_number<W: Write>(out: &mut W, answer: Result<Number, Refusal>) -> io::Result<()> {
    match answer {
        Ok(Number { value, next }) => write!(out, ": accepted {value} next {next}")?,
        Err(why) => say_refused(out, why)?,
    }
    writeln!(out, "")
}

// What a requirement has.
pub fn say_checked<W: Write>(out: &mut W, answer: Result<Checked, Refusal>) -> io::Result<()> {
    match answer {
        Ok(Checked { nodes, depth }) => write!(out, ": nodes {nodes} depth {depth}")?,
        Err(why) => say_refused(out, why)?,
    }
    writeln!(out, "")
}

// Where a body stands; the line goes on.
pub fn say_found<W: Write>(out: &mut W, answer: Result<Span, Refusal>) -> io::Result<()> {
    match answer {
        Ok(Span { begin, end }) => write!(out, ": body from {begin} to {end}"),
        Err(why) => say_refused(out, why),
    }
}

// The answer of a reader or a writer, with what it stored, and the checksum of the whole buffer, of which so much was
// lent.
pub fn say_stored<T: Copy + Into<u16>, W: Write>(
    out: &mut W,
    answer: Answer,
    lent: usize,
    buffer: &[T; ROOM],
) -> io::Result<()> {
    write!(out, " room {lent}")?;
    match answer {
        Ok(n) => {
            write!(out, ": accepted {n}")?;
            say_row(out, buffer, n)?;
        }
        Err(why) => say_refused(out, why)?,
    }
    writeln!(out, "; buffer {}", checksum(buffer))
}

// The bytes of a body, and the checksum of a buffer that has them at its front.
pub fn say_body<W: Write>(out: &mut W, body: &[u8]) -> io::Result<()> {
    let mut buffer = [0u8; ROOM];
    let n = body.len();
    let front = n.min(ROOM);
    buffer[..front].copy_from_slice(&body[..front]);
    write!(out, "; bytes {n}")?;
    say_row(out, &buffer, n)?;
    writeln!(out, "; sum {}", checksum(&buffer))
}

// The first n numbers of a row.
fn say_row<T: Copy + Into<u16>, W: Write>(out: &mut W, row: &[T], n: usize) -> io::Result<()> {
    write!(out, ":")?;
    if n <= 2 * ENDS {
        return say_items(out, row, 0..n);
    }
    say_items(out, row, 0..ENDS)?;
    write!(out, " ..")?;
    say_items(out, row, n - ENDS..n)
}

// The numbers at these places, 0 past the row's end.
fn say_items<T: Copy + Into<u16>, W: Write>(
    out: &mut W,
    row: &[T],
    places: Range<usize>,
) -> io::Result<()> {
    for place in places {
        let number: u16 = row.get(place).map_or(0, |item| (*item).into());
        write!(out, " {number}")?;
    }
    Ok(())
}
