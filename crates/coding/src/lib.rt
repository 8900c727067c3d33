// The coding: one number, rows of numbers with their places, and what a reader or a writer refuses.
#![tactic(auto)]

mod source;

ghost use Rattle.std.specs.Prelude.{◌≡◌, ◌+◌, ◌≤◌, length, set};
ghost use Rattle.coding.specs.Refusal.{number_of};
ghost use Rattle.coding.specs.Number.{number_at, bytes_of};
ghost use Rattle.coding.specs.Code.{code_at, values, bytes_of_all};
ghost use Rattle.coding.specs.Block.{block_at};
ghost use Rattle.coding.specs.Room.{over, settled, resized, stored, wrote_number};

pub use source::Source;

// Why something is refused: a case for each row of the table of refusals, and four for its first row.
#[derive(Clone, Copy, Debug, PartialEq, Eq)]
pub enum Cause {
    CutShort,
    NotShortest,
    TooLarge,
    LeftOver,
    NotAllowed,
    NoSuchNode,
    PastLimit,
    NoRule,
    LongTurn,
    LongRun,
    NotClosed,
    BadTrace,
    ShortBuffer,
    NameAbsent,
}

// Why something is refused, and at which place: a byte, an index, or what document 01 names for the cause.
#[derive(Clone, Copy, Debug, PartialEq, Eq)]
pub struct Refusal {
    pub cause: Cause,
    pub place: usize,
}

// A number that was read: its value, and the place after it.
#[derive(Clone, Copy, Debug, PartialEq, Eq)]
pub struct Number {
    pub value: u16,
    pub next: usize,
}

// Where a part of some bytes begins and ends.
#[derive(Clone, Copy, Debug, PartialEq, Eq)]
pub struct Span {
    pub begin: usize,
    pub end: usize,
}

// What a reader, a writer or a check of a whole code answers: how many numbers or bytes, or a refusal.
pub type Answer = Result<usize, Refusal>;

// An answer in the paper's numbers, for callers outside: the number of the refusal and its place, or 0 and what was found.
#[repr(C)]
#[derive(Clone, Copy)]
pub struct Told {
    pub refusal: u64,
    pub first: u64,
    pub second: u64,
}

impl Cause {
    // The refusal of this cause at a place.
    pub fn at(self, place: usize) -> Refusal
        ensures { result ≡ record { cause = self; place = place } }
    {
        Refusal { cause: self, place }
    }
}

// The paper's number of a cause. (A function, which docs/PROMISES.md names, and no `u8::from`: C and the texts tell it,
// and nothing is converted back.)
pub fn number_of(cause: Cause) -> u8
    ensures { result ≡ number_of cause }
{
    match cause {
        Cause::CutShort => 1,
        Cause::NotShortest => 1,
        Cause::TooLarge => 1,
        Cause::LeftOver => 1,
        Cause::NotAllowed => 2,
        Cause::NoSuchNode => 3,
        Cause::PastLimit => 4,
        Cause::NoRule => 5,
        Cause::LongTurn => 6,
        Cause::LongRun => 7,
        Cause::NotClosed => 8,
        Cause::BadTrace => 9,
        Cause::ShortBuffer => 10,
        Cause::NameAbsent => 11,
    }
}

// An element stored at a place of a list, if the list has such a place. std's `get_mut` says what it lends, and not
// what the list is after a store to that.
pub fn set_at<T: Copy>(list: &mut [T], at: usize, x: T)
    ensures { list.new ≡ set list.old at x }
{
    if at < list.len() {
        list[at] = x;
    }
}

// The number whose first byte is at `at`.
#[tactic(auto, using(crate::proofs::Numbers::ways))]
pub fn read_number(code: &[u8], at: usize) -> Result<Number, Refusal>
    ensures { result ≡ number_at code.now at }
{
    if code.len() <= at {
        return Err(Cause::CutShort.at(at));
    }
    let a = u16::from(code[at]);
    let i = at + 1;
    if a < 128 {
        return Ok(Number { value: a, next: i });
    }
    if code.len() <= i {
        return Err(Cause::CutShort.at(at));
    }
    let b = u16::from(code[i]);
    if b == 0 {
        return Err(Cause::NotShortest.at(at));
    }
    let j = i + 1;
    let low = a - 128;
    if b < 128 {
        let two = low + b * 128;
        return Ok(Number {
            value: two,
            next: j,
        });
    }
    if code.len() <= j {
        return Err(Cause::CutShort.at(at));
    }
    let c = u16::from(code[j]);
    if c == 0 {
        return Err(Cause::NotShortest.at(at));
    }
    if 3 < c {
        return Err(Cause::TooLarge.at(at));
    }
    let two = low + (b - 128) * 128;
    let three = two + c * 16384;
    let next = j + 1;
    Ok(Number { value: three, next })
}

// The block whose length stands at a place: so many bytes behind it.
#[tactic(auto, unfolding(crate::specs::Block::block_at), using(crate::proofs::Blocks::blocks))]
pub fn block_at(code: &[u8], at: usize) -> Result<Span, Refusal>
    ensures { result ≡ block_at code.now at }
{
    let length = read_number(code, at)?;
    let begin = length.next;
    let size = usize::from(length.value);
    let left = code.len() - begin;
    if left < size {
        return Err(Cause::CutShort.at(at));
    }
    Ok(Span {
        begin,
        end: begin + size,
    })
}

// How many bytes a number takes.
#[tactic(auto, unfolding(crate::specs::Number::bytes_of))]
pub fn size_of(v: u16) -> usize
    ensures { result ≡ length (bytes_of v) }
{
    if v < 128 {
        1
    } else if v < 16384 {
        2
    } else {
        3
    }
}

// The number's bytes from `at` on, where there is room for them. The place after them.
#[tactic(auto, unfolding(crate::specs::Number::bytes_of, crate::specs::Room::over))]
fn put(v: u16, buf: &mut [u8], at: usize) -> usize
    requires { at + length (bytes_of v) ≤ length buf.old }
    ensures { (result ≡ at + length (bytes_of v)) × (buf.new ≡ over buf.old at (bytes_of v)) }
{
    if v < 128 {
        buf[at] = v as u8;
        return at + 1;
    }
    buf[at] = (v % 128 + 128) as u8;
    if v < 16384 {
        buf[at + 1] = (v / 128) as u8;
        return at + 2;
    }
    buf[at + 1] = (v / 128 % 128 + 128) as u8;
    buf[at + 2] = (v / 16384) as u8;
    at + 3
}

// The number's bytes from the buffer's first byte on, or nothing, for want of room.
#[tactic(auto, unfolding(crate::specs::Room::wrote_number))]
pub fn write_number(v: u16, buf: &mut [u8]) -> Answer
    ensures { (result ≡ wrote_number v buf.old) × (buf.new ≡ stored result buf.old (bytes_of v)) }
{
    let n = size_of(v);
    if buf.len() < n {
        return Err(Cause::ShortBuffer.at(n));
    }
    put(v, buf, 0);
    Ok(n)
}

// How many numbers the code has, up to its first fault.
pub fn count_numbers(code: &[u8]) -> usize
    ensures { result ≡ length (values (code_at code.now 0)) }
{
    let mut at: usize = 0;
    let mut n: usize = 0;
    // No `for`: how long a number is shows only when it is read, so there is no index to range over, and an iterator
    // that kept the place would be a type with this same step.
    while let Ok(number) = read_number(code, at) {
        n += 1;
        at = number.next;
    }
    n
}

// Stores the code's numbers, from the first on, until the code or the room ends.
#[tactic(auto, using(crate::proofs::Bytes::over_full))]
pub fn store_numbers(code: &[u8], out: &mut [u16])
    ensures { out.new ≡ over out.old 0 (values (code_at code.now 0)) }
{
    let mut at: usize = 0;
    for element in out.iter_mut() {
        let Ok(number) = read_number(code, at) else {
            return;
        };
        *element = number.value;
        at = number.next;
    }
}

// How many bytes a row of numbers takes.
#[tactic(auto, using(crate::proofs::Loops::sizes))]
pub fn size_of_all(numbers: &[u16]) -> usize
    ensures { result ≡ length (bytes_of_all numbers.now) }
{
    let mut n: usize = 0;
    for v in numbers {
        n += size_of(*v);
    }
    n
}

// Stores the bytes of a row of numbers, for which there is room.
#[tactic(auto, using(crate::specs::Working::Rows::bytes_none, crate::proofs::Bytes::over_nil))]
fn store_bytes(numbers: &[u16], buf: &mut [u8])
    requires { length (bytes_of_all numbers.now) ≤ length buf.old }
    ensures { buf.new ≡ over buf.old 0 (bytes_of_all numbers.now) }
{
    let mut at: usize = 0;
    for v in numbers {
        at = put(*v, buf, at);
    }
}

// The end of every reader: what was checked is stored, if there is room for as many numbers as were counted.
pub fn read_checked(checked: Answer, code: &[u8], out: &mut [u16]) -> Answer
    ensures { (result ≡ settled (length out.old) checked)
        × (out.new ≡ stored result out.old (values (code_at code.now 0))) }
{
    let n = checked?;
    if out.len() < n {
        return Err(Cause::ShortBuffer.at(n));
    }
    store_numbers(code, out);
    Ok(n)
}

// The end of every writer: what was checked is stored, if there is room for its bytes.
pub fn write_checked(checked: Answer, numbers: &[u16], buf: &mut [u8]) -> Answer
    ensures { (result ≡ settled (length buf.old) (resized (length (bytes_of_all numbers.now)) checked))
        × (buf.new ≡ stored result buf.old (bytes_of_all numbers.now)) }
{
    checked?;
    let n = size_of_all(numbers);
    if buf.len() < n {
        return Err(Cause::ShortBuffer.at(n));
    }
    store_bytes(numbers, buf);
    Ok(n)
}
