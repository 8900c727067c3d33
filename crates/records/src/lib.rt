// What the programs share that read standard input: reading it whole, taking it apart from the front, obeying the
// records that it holds, and the checksum of a buffer.
#![tactic(auto)]

mod unread;
mod words;

ghost use Rattle.std.specs.Prelude.{◌≤◌, ◌<◌, ℕ, List, ⊤, length, take, OnSome, OnOk};
ghost use Rattle.std.specs.declared.option.Option.{Option};
ghost use Rattle.std.specs.Io.KnownBytes.{Consumes};
ghost use Rattle.std.specs.List.{FoldsTo};
ghost use Rattle.records.specs.Checksum.{Counts};
ghost use Rattle.records.specs.Obeying.{Obeyed};

use std::io;
use std::io::{Read, Write};
pub use unread::Unread;
pub use words::{say_refused, word_of};

// Reads until the buffer is full, the input ends or a read fails, and answers how many bytes stand at its front. (The
// library's `read_exact` says nothing of an input that ends before the buffer is full, and its `read_to_end` takes a
// growing buffer.)
pub fn read_full<R: Read>(reader: &mut R, input: &mut [u8]) -> usize
    ensures fits { result ≤ length input.new }
    ensures reads { Consumes (R.remaining reader.old) (R.remaining reader.new) (take result input.new) }
{
    let mut done = 0;
    while done < input.len() {
        match reader.read(&mut input[done..]) {
            Ok(0) => return done,
            Ok(n) => done += n,
            Err(_) => return done,
        }
    }
    done
}

// Changes with every number of a buffer and with its place: the modulus is a prime, and the powers of 257 below the
// length of any buffer lent here all differ.
pub fn checksum<T: Copy + Into<u16>>(numbers: &[T]) -> u64
    ensures { FoldsTo (Counts T.converts) 0 numbers.now result }
{
    let mut sum: u64 = 0;
    for number in numbers {
        let plain: u16 = (*number).into();
        sum = (sum * 257 + u64::from(plain)) % 4294967291;
    }
    sum
}

// A command that stands at the front of an input.
pub trait Record<'a>: Drop + Sized {
    // Whether this is the record at the front of an input, with so much left behind it, or none where there is no whole
    // record.
    ghost stands: { List ℕ → Option Self → List ℕ → Type 0 } = { λ _ _ _. ⊤ };

    // What obeying the record writes: the bytes of the writer before and after, where they are known.
    ghost writes: { Self → Option (List ℕ) → Option (List ℕ) → Type 0 } = { λ _ _ _. ⊤ };

    // Takes the record at the front.
    fn next(unread: &mut Unread<'a>) -> Option<Self>
        ensures stands { stands unread.old.rest.now result unread.new.rest.now }
        ensures shorter { OnSome result (length unread.new.rest.now < length unread.old.rest.now) };

    fn obey<W: Write>(&self, out: &mut W) -> io::Result<()>
        ensures { OnOk result (writes self.now (W.contents out.old) (W.contents out.new)) };
}

// Obeys the records of an input one after another, up to the first that is not whole.
pub fn obey_all<'a, C: Record<'a>, W: Write>(input: &'a [u8], out: &mut W) -> io::Result<()>
    ensures { OnOk result (Obeyed C.stands C.writes input.now (W.contents out.old) (W.contents out.new)) }
{
    let mut unread = Unread::of(input);
    while let Some(record) = C::next(&mut unread) {
        record.obey(out)?;
    }
    Ok(())
}
