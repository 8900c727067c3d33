// What is printed of an answer and of the buffers that were lent.
use coding::{Answer, Refusal};
use judge::Verdict;
use records::say_refused;
use std::io;
use std::io::Write;

// The size of the buffers, the most room that is lent.
pub const ROOM: usize = 8192;

// Of so many findings or bytes all are printed, of more none.
const SHOWN: usize = 40;

// The answer of a judging, with the positions in its list.
pub fn say_judged<W: Write>(
    out: &mut W,
    answer: Result<Verdict, Refusal>,
    list: &[u8; ROOM],
) -> io::Result<()> {
    match answer {
        Err(why) => say_refused(out, why),
        Ok(Verdict { holds, count }) => {
            // With its colon, so that it is one write.
            let verdict = if holds { ": holds" } else { ": fails" };
            write!(out, "{verdict}, findings {count}")?;
            let (pairs, _) = list.as_chunks::<2>();
            say_row(out, pairs, count, |pair| u16::from_le_bytes(*pair))
        }
    }
}

// The answer of a translation, with its bytes.
pub fn say_translated<W: Write>(out: &mut W, answer: Answer, bytes: &[u8; ROOM]) -> io::Result<()> {
    match answer {
        Err(why) => say_refused(out, why),
        Ok(n) => {
            write!(out, ": accepted {n}")?;
            say_row(out, bytes, n, |byte| u16::from(*byte))
        }
    }
}

// The first n items of a row, each as its number.
fn say_row<T, W: Write, F: Fn(&T) -> u16>(
    out: &mut W,
    row: &[T],
    n: usize,
    number: F,
) -> io::Result<()>
    requires { F.IsAlwaysCallable number }
{
    write!(out, ":")?;
    if n <= SHOWN {
        for item in row.iter().take(n) {
            write!(out, " {}", number(item))?;
        }
    }
    Ok(())
}
