// Sheets: named bodies one after another. A lookup answers where a body stands, or with the very bytes of the sheet.
#![tactic(auto)]

ghost use Rattle.std.specs.Prelude.{◌≡◌, ◌+◌, ◌≤◌, length};
ghost use Rattle.sheet.specs.Sheet.{name_at, entry_at, check_from, seek_from, find_in, body_of, start_of, eqbs, part};

use coding::{Answer, Cause, Refusal, Span};

const MOST_ENTRIES: u16 = 32;

const LONGEST_NAME: u16 = 16;

// An entry of the sheet: its name and its body.
#[derive(Clone, Copy)]
struct Entry {
    name: Span,
    body: Span,
}

// The name whose length stands at `at`: the length is looked at before the text.
#[tactic(auto, unfolding(crate::specs::Sheet::name_at))]
fn name_at(sheet: &[u8], at: usize) -> Result<Span, Refusal>
    ensures { result ≡ name_at sheet.now at }
{
    let length = coding::read_number(sheet, at)?;
    if length.value == 0 || LONGEST_NAME < length.value {
        return Err(Cause::NotAllowed.at(at));
    }
    coding::block_at(sheet, at)
}

// The entry whose name's length stands at `at`.
#[tactic(auto, unfolding(crate::specs::Sheet::entry_at))]
fn entry_at(sheet: &[u8], at: usize) -> Result<Entry, Refusal>
    ensures { result ≡ entry_at sheet.now at }
{
    let name = name_at(sheet, at)?;
    let body = coding::block_at(sheet, name.end)?;
    Ok(Entry { name, body })
}

// So many entries from `at` on and nothing after them, or the first fault.
#[tactic(auto, using(crate::proofs::Laws::checks))]
fn check_entries(sheet: &[u8], count: u16, at: usize) -> Answer
    ensures { result ≡ check_from sheet.now count count at }
{
    let mut next = at;
    for _ in 0..count {
        let entry = entry_at(sheet, next)?;
        next = entry.body.end;
    }
    if next < sheet.len() {
        return Err(Cause::LeftOver.at(next));
    }
    Ok(usize::from(count))
}

// Whether two texts are the same.
fn same(a: &[u8], b: &[u8]) -> bool
    ensures { result ≡ eqbs a.now b.now }
{
    check::same(a, b)
}

// Whether this text of the sheet is the name.
fn is_named(sheet: &[u8], text: Span, name: &[u8]) -> bool
    requires { (text.begin ≤ text.end) × (text.end ≤ length sheet.now) }
    ensures { result ≡ eqbs (part sheet.now text.begin text.end) name.now }
{
    same(&sheet[text.begin..text.end], name)
}

// The first of so many entries from `at` on that has the name.
#[tactic(auto, using(crate::proofs::Laws::seeks))]
fn seek(sheet: &[u8], name: &[u8], count: u16, at: usize) -> Result<Span, Refusal>
    ensures { result ≡ seek_from sheet.now name.now count at }
{
    let mut here = at;
    for _ in 0..count {
        let entry = entry_at(sheet, here)?;
        if is_named(sheet, entry.name, name) {
            return Ok(entry.body);
        }
        here = entry.body.end;
    }
    Err(Cause::NameAbsent.at(0))
}

// Where the body of a name stands. Every length of the sheet is checked before the name is sought.
#[tactic(auto, unfolding(crate::specs::Sheet::find_in))]
pub fn find(sheet: &[u8], name: &[u8]) -> Result<Span, Refusal>
    ensures { result ≡ find_in sheet.now name.now }
{
    let count = coding::read_number(sheet, 0)?;
    if MOST_ENTRIES < count.value {
        return Err(Cause::NotAllowed.at(0));
    }
    check_entries(sheet, count.value, count.next)?;
    seek(sheet, name, count.value, count.next)
}

// The body of a name, as the very bytes of the sheet; nothing where the lookup refuses.
#[tactic(auto, unfolding(crate::specs::Sheet::body_of, crate::specs::Sheet::start_of))]
pub fn body<'a, 'b>(sheet: &'a [u8], name: &'b [u8]) -> &'a [u8]
    ensures bytes { result.now ≡ body_of sheet.now (find_in sheet.now name.now) }
    // the part lies in the sheet's own memory, so many bytes after its start
    ensures place { (result.ref_ptr.0 ≡ sheet.entry.ref_ptr.0) × (result.ref_ptr.1 ≡ sheet.entry.ref_ptr.1 + start_of (find_in sheet.now name.now)) }
{
    match find(sheet, name) {
        Ok(span) => &sheet[span.begin..span.end],
        Err(_) => &sheet[0..0],
    }
}
