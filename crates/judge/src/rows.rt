// Rows of bits, a byte or four bytes at a time: the highest digit of a byte is its first position. How many positions
// there are is a number here, and no trace, so their bound stands with each function.
ghost use Rattle.std.specs.Prelude.{◌≡◌, false, not, ◌||◌, ℕ, ◌+◌, ◌*◌, ◌-◌, ◌/◌, ◌%◌, ◌^◌, ◌≤◌, ◌<◌, length, drop, set, slice_index};
ghost use Rattle.std.specs.Int.Bits.{bit_or};
ghost use Rattle.meaning.specs.Rows.{walk};
ghost use Rattle.bits.specs.Bits.{bit_b, put_b, bit_at, digit};
ghost use Rattle.bits.specs.Rows.{row_of, after_of, until_on, until_b, carry_b, Padded, Packs, word_at, put_word, Stepped};
ghost use Rattle.lasso.specs.Bytes.{positions, phase_byte, atom_b};
ghost use Rattle.judge.specs.Working.{longest_row, digit_in, Marked};

// The bytes of a row of 4,096 positions, the most there are.
pub const ROW: usize = 512;

// Digit k of x is set.
pub fn bit(x: u8, k: usize) -> bool
    requires { k < 8 }
    ensures { result ≡ bit_b x k }
{
    (x >> k) % 2 == 1
}

// Until at the positions of a byte or of four bytes at once, with what is behind them carried in; and what the first
// of them is.
fn until(x: u64, y: u64, behind: u64, positions: u32) -> (u64, u64)
    requires { (positions ≤ 32) × (x < 2 ^ positions) × (y < 2 ^ positions) × (behind < 2) }
    ensures value { (result.0 ≡ until_b x y behind) × (result.0 < 2 ^ positions) }
    ensures carry { result.1 ≡ (bit_or x y + y + behind) / 2 ^ positions }
{
    let either = x | y;
    let sum = either + y + behind;
    ((sum ^ either ^ y) >> 1, sum >> positions)
}

// Four bytes from i on as one number, the first of them the highest.
fn word(work: &[u8], i: usize) -> u64
    requires { (i + 4 ≤ length work.now) × (i ≤ 1024) }
    ensures { (result ≡ word_at work.now i) × (result < 2 ^ 32) }
{
    u64::from(u32::from_be_bytes([work[i], work[i + 1], work[i + 2], work[i + 3]]))
}

// The four bytes of x from i on.
fn put_word(work: &mut [u8], i: usize, x: u32)
    requires { (i + 4 ≤ length work.old) × (i ≤ 1024) }
    ensures { work.new ≡ put_word work.old i x }
{
    work[i..i + 4].copy_from_slice(&x.to_be_bytes());
}

// What the first row until the second is at the first position of byte `from`, where false is behind the row.
// Four bytes at a time from the end of the row, and then the bytes before them.
fn walk_back(work: &[u8], row: usize, from: usize) -> u64
    requires { (from ≤ row) × (row ≤ 512) × (row + row ≤ length work.now) }
    ensures { result
        ≡ digit (walk (bit_at work.now) (bit_at (drop row work.now)) false (8 * row - 8 * from) (8 * from)) }
{
    let words = (row - from) / 4;
    let head = row - 4 * words;
    let mut carry = 0;
    for k in (0..words).rev() {
        let i = head + 4 * k;
        carry = until(word(work, i), word(work, row + i), carry, 32).1;
    }
    for i in (from..head).rev() {
        carry = until(u64::from(work[i]), u64::from(work[row + i]), carry, 8).1;
    }
    carry
}

// One step down of the walk, of 32 positions.
fn step_word(work: &mut [u8], row: usize, i: usize, behind: u64) -> u64
    requires { (i + 4 ≤ row) × (row ≤ 512) × (row + row ≤ length work.old) × (behind < 2) }
    ensures { Stepped row i behind work.old work.new result }
{
    let (value, carry) = until(word(work, i), word(work, row + i), behind, 32);
    put_word(work, i, value as u32);
    carry
}

// One step down of the walk, of 8 positions. The byte is taken by its index, which is plainer than a word of one byte.
fn step_byte(work: &mut [u8], row: usize, i: usize, behind: u64) -> u64
    requires { (i < row) × (row ≤ 512) × (row + row ≤ length work.old) × (behind < 2) }
    ensures row_is { work.new
        ≡ set work.old i (until_b (slice_index work.old i) (slice_index work.old (row + i)) behind) }
    ensures carry_is { result ≡ carry_b (slice_index work.old i) (slice_index work.old (row + i)) behind }
{
    let (value, carry) = until(u64::from(work[i]), u64::from(work[row + i]), behind, 8);
    work[i] = value as u8;
    carry
}

// The first row until the second, in the first, where `last` is behind the row.
fn walk_row(work: &mut [u8], row: usize, last: bool)
    requires { (row ≤ 512) × (row + row ≤ length work.old) }
    ensures { (p : ℕ) → p < 8 * row
        → bit_at work.new p ≡ walk (bit_at work.old) (bit_at (drop row work.old)) last (8 * row - p) p }
{
    let head = row % 4;
    let mut carry = u64::from(last);
    for k in (0..row / 4).rev() {
        carry = step_word(work, row, head + 4 * k, carry);
    }
    for i in (0..head).rev() {
        carry = step_byte(work, row, i, carry);
    }
}

// What the first row until the second is at `start`, where false is behind the row.
fn join(work: &[u8], row: usize, start: usize) -> bool
    requires { (start < 8 * row) × (row ≤ 512) × (row + row ≤ length work.now) }
    ensures { result ≡ walk (bit_at work.now) (bit_at (drop row work.now)) false (8 * row - start) start }
{
    let from = start / 8;
    let behind = walk_back(work, row, from + 1);
    let (value, _) = until(
        u64::from(work[from]),
        u64::from(work[row + from]),
        behind,
        8,
    );
    bit(value as u8, 7 - start % 8)
}

// The k low digits set.
pub fn low(k: usize) -> u8
    requires { k < 8 }
    ensures { result ≡ 2 ^ k - 1 }
{
    (1u8 << k) - 1
}

// Behind n positions the first row all true, the second all false.
fn pad(work: &mut [u8], row: usize, n: usize)
    requires { (0 < n) × (n ≤ 4096) × (row ≡ row_of n) × (row + row ≤ length work.old) }
    ensures { Padded n row work.old work.new }
{
    let last = row - 1;
    let behind = low(8 * row - n);
    work[last] |= behind;
    work[row + last] &= !behind;
}

// The first row until the second on a lasso, in the first.
pub fn until_rows(n: usize, start: usize, work: &mut [u8])
    requires { (start < n) × (n ≤ 4096) × (row_of n + row_of n ≤ length work.old) }
    ensures { (p : ℕ) → p < n
        → bit_at work.new p ≡ until_on n start (bit_at work.old) (bit_at (drop (row_of n) work.old)) p }
{
    let row = (n + 7) / 8;
    pad(work, row, n);
    let v = join(work, row, start);
    walk_row(work, row, v);
}

// x with digit k made v.
fn with_bit(x: u8, k: usize, v: bool) -> u8
    requires { k < 8 }
    ensures { result ≡ put_b x k v }
{
    let m = 1u8 << k;
    if bit(x, k) {
        if v { x } else { x - m }
    } else {
        if v { x + m } else { x }
    }
}

// Each byte by one operation.
pub fn each_byte<F: Fn(u8) -> u8>(work: &mut [u8], operation: F)
    requires { F.IsAlwaysCallable operation }
    ensures { (i : ℕ) → i < length work.old → F.post operation (slice_index work.old i) (slice_index work.new i) }
{
    for x in work.iter_mut() {
        *x = operation(*x);
    }
}

// Each byte and the byte of another row at its place by one operation.
// The place is counted beside the byte: of the bytes that a `zip` over `iter_mut` has written, nothing can be said.
pub fn with_each<F: Fn(u8, u8) -> u8>(work: &mut [u8], other: &[u8], operation: F)
    requires callable { F.IsAlwaysCallable operation }
    requires long { length work.old ≤ length other.now }
    ensures { (i : ℕ) → i < length work.old
        → F.post operation (slice_index work.old i) (slice_index other.now i) (slice_index work.new i) }
{
    for (i, x) in work.iter_mut().enumerate() {
        *x = operation(*x, other[i]);
    }
}

// Seven positions of x and the first of y, one back.
fn shifted(x: u8, y: u8) -> u8
    ensures { result ≡ x % 128 * 2 + y / 128 }
{
    x % 128 * 2 + y / 128
}

// Each bit takes the bit of the position after it.
pub fn next_row(n: usize, start: usize, work: &mut [u8])
    requires { (start < n) × (n ≤ 4096) × (row_of n ≤ length work.old) }
    ensures { (p : ℕ) → p < n → bit_at work.new p ≡ bit_at work.old (after_of n start p) }
{
    let row = (n + 7) / 8;
    let b = work[start / 8];
    let first = bit(b, 7 - start % 8);
    let last = row - 1;
    for i in 0..last {
        work[i] = shifted(work[i], work[i + 1]);
    }
    work[last] = with_bit(shifted(work[last], 0), 8 * row - n, first);
}

// The c digits of x as the highest of a byte.
fn placed(x: u32, c: usize) -> u8
    requires { (c ≤ 8) × (x < 2 ^ c) }
    ensures { result ≡ x * 2 ^ (8 - c) }
{
    let k = 8 - c;
    let y = x << k;
    y as u8
}

// Digit k of one of a position's five bytes at c positions from p on, the first of them the highest digit.
fn digit_byte(trace: &[u8], column: usize, k: usize, p: usize, c: usize) -> u8
    requires { (column < 5) × (k < 8) × (c ≤ 8) × (p + c ≤ positions trace.now)
        × (positions trace.now ≤ 4096) }
    ensures { Packs (digit_in trace.now column k) p c result }
{
    let mask = 1u8 << k;
    let mut digits = 0u32;
    for j in 0..c {
        digits = digits * 2 + u32::from(trace[(p + j) * 5 + column] & mask);
    }
    placed(digits >> k, c)
}

// The row of digit k of one of a position's five bytes.
fn fill_digit(trace: &[u8], column: usize, k: usize, work: &mut [u8])
    requires { (column < 5) × (k < 8) × (positions trace.now ≤ 4096)
        × (row_of (positions trace.now) ≤ length work.old) }
    ensures { (p : ℕ) → p < positions trace.now → bit_at work.new p ≡ digit_in trace.now column k p }
{
    let n = trace.len() / 5;
    let full = n / 8;
    for i in 0..full {
        work[i] = digit_byte(trace, column, k, 8 * i, 8);
    }
    let rest = n % 8;
    if rest > 0 {
        work[full] = digit_byte(trace, column, k, 8 * full, rest);
    }
}

// The row of an atom.
pub fn fill_atom(trace: &[u8], a: usize, work: &mut [u8])
    requires { (a < 32) × (positions trace.now ≤ 4096) × (row_of (positions trace.now) ≤ length work.old) }
    ensures { (p : ℕ) → p < positions trace.now → bit_at work.new p ≡ atom_b trace.now a p }
{
    fill_digit(trace, 1 + a / 8, a % 8, work);
}

// The first row becomes what neither of the two behind it has. A byte is named by its place in the one buffer: split in
// three, what is promised of the buffer would have to be said of each part and put together again.
fn fill_neither(marks: &mut [u8])
    requires { length marks.old ≡ 3 * longest_row }
    ensures { ((p : ℕ) → p < 8 * longest_row → bit_at marks.new p
        ≡ not (bit_at (drop longest_row marks.old) p || bit_at (drop (2 * longest_row) marks.old) p))
        × (drop longest_row marks.new ≡ drop longest_row marks.old) }
{
    for i in 0..ROW {
        marks[i] = !(marks[ROW + i] | marks[2 * ROW + i]);
    }
}

// The rows of the phases of a trace whose phase bytes are 0, 1 and 2: their low digit is Exe, the next is Output, and
// Input has neither.
pub fn fill_marks(trace: &[u8], marks: &mut [u8])
    requires { (positions trace.now ≤ 4096) × ((p : ℕ) → p < positions trace.now → phase_byte trace.now p ≤ 2)
        × (length marks.old ≡ 3 * longest_row) }
    ensures { Marked trace.now marks.new }
{
    fill_digit(trace, 0, 0, &mut marks[ROW..2 * ROW]);
    fill_digit(trace, 0, 1, &mut marks[2 * ROW..3 * ROW]);
    fill_neither(marks);
}
