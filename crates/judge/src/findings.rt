// The findings' row: the Input positions at which the requirement fails; counted, listed, and the work cleared.
ghost use Rattle.std.specs.Prelude.{◌≡◌, false, ℕ, ◌*◌, ◌≤◌, ◌<◌, length, replicate};
ghost use Rattle.coding.specs.Room.{over};
ghost use Rattle.bits.specs.Bits.{bit_at, count_b};
ghost use Rattle.bits.specs.Rows.{row_of};
ghost use Rattle.lasso.specs.Bytes.{positions};
ghost use Rattle.judge.specs.Judging.{position_bytes};
ghost use Rattle.judge.specs.Working.{Same, HasRows, IsRow, failing, listed, PutPosition, ListsByte};

use crate::operators::MarkedTrace;
use crate::rows;

// Nothing behind the last position.
fn clear_behind(work: &mut [u8], n: usize)
    requires { (0 < n) × (n ≤ 4096) × (row_of n ≤ length work.old) }
    ensures { Same n (bit_at work.new) (bit_at work.old)
        × ((p : ℕ) → n ≤ p → p < 8 * row_of n → bit_at work.new p ≡ false) }
{
    let row = (n + 7) / 8;
    let behind = rows::low(8 * row - n);
    work[row - 1] &= !behind;
}

// The first row becomes the findings' row, with nothing behind the last position. The row of the phase Input is the
// first of the marks.
pub fn keep_failing(marked: &MarkedTrace, work: &mut [u8])
    requires { HasRows 1 marked.now.trace.now work.old }
    ensures { IsRow marked.now.trace.now work.new (failing marked.now.trace.now (bit_at work.old))
        × ((p : ℕ) → positions marked.now.trace.now ≤ p → p < 8 * row_of (positions marked.now.trace.now)
        → bit_at work.new p ≡ false) }
{
    let row = marked.row();
    let failing = |holds: u8, input: u8| !holds & input;
    rows::with_each(&mut work[..row], marked.marks, failing);
    clear_behind(work, marked.positions());
}

// How many bits of a row are set.
pub fn count_row(row: &[u8]) -> usize
    requires { length row.now ≤ 512 }
    ensures { result ≡ count_b (bit_at row.now) (8 * length row.now) }
{
    row.iter().map(|x| x.count_ones() as usize).sum()
}

// Puts a position into the list, low byte first, where there is room for both of its bytes. The place after it.
fn put_position(p: usize, list: &mut [u8], at: usize) -> usize
    requires { (p < 4096) × (at ≤ length list.old) }
    ensures { PutPosition p list.old at list.new result }
{
    if at + 1 < list.len() {
        list[at..at + 2].copy_from_slice(&(p as u16).to_le_bytes());
        at + 2
    } else {
        at
    }
}

// The positions of the bits of byte i of a row, ascending, from a place of the list on. The place after them.
fn list_byte(row: &[u8], i: usize, list: &mut [u8], place: usize) -> usize
    requires { (i < length row.now) × (length row.now ≤ 512) × (place ≤ length list.old) }
    ensures { ListsByte (bit_at row.now) i place list.old result list.new }
{
    let x = row[i];
    let mut at = place;
    for k in 0..8 {
        if rows::bit(x, 7 - k) {
            at = put_position(8 * i + k, list, at);
        }
    }
    at
}

// The positions of a row's bits, ascending, from the list's first byte on. A byte without a bit is passed at once.
pub fn list_row(row: &[u8], list: &mut [u8])
    requires { (length row.now ≤ 512) × (2 * count_b (bit_at row.now) (8 * length row.now) ≤ length list.old) }
    ensures { list.new ≡ over list.old 0 (position_bytes (listed (bit_at row.now) (8 * length row.now))) }
{
    let mut at = 0;
    for (i, x) in row.iter().enumerate() {
        if *x != 0 {
            at = list_byte(row, i, list, at);
        }
    }
}

// Every byte made 0.
pub fn clear(work: &mut [u8])
    ensures { work.new ≡ replicate (length work.old) 0 }
{
    work.fill(0);
}
