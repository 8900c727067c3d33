// The reader and the writer of tables and of inputs records, from bytes or from numbers: what may stand where is said by `ranges`, number by number.
#![tactic(auto)]

mod skips;
mod tests;

ghost use Rattle.std.specs.Prelude.{◌≡◌};
ghost use Rattle.coding.specs.Code.{code_at, values, bytes_of_all};
ghost use Rattle.coding.specs.Room.{read_by, write_by, stored};
ghost use Rattle.ranges.specs.Limits.{most_processes};
ghost use Rattle.table.specs.Table.{role_of, noted, ended_at, table_grammar, inputs_grammar};
ghost use Rattle.table.specs.Working.Looking.{Looked};

use coding::{Answer, Cause, Refusal, Source};
use ranges::{Step, Want};

// Room for the count of processes and the states of at most 64: at place 0 the one, at place p the states of process p,
// as the definition `noted` has them.
const COUNTS: usize = 65;

// What a number that is wanted is to the second look at the tests.
// An enum of its own: there are five cases, where Option and Result have two.
#[derive(Clone, Copy)]
enum Role {
    // how many processes there are
    ProcessCount,
    // how many active states a process has
    StateCount(u16),
    // a test's a, of this kind; its b, of this kind and with this a (the kind a number, as in the definition `role_of`)
    OfTestA(u16),
    OfTestB(u16, u16),
    Other,
}

// What the first look at an accepted source finds: how many numbers it has, and the counts of processes and states.
#[derive(Clone, Copy)]
struct Seen {
    count: usize,
    counts: [u16; COUNTS],
}

fn role_of(want: Want) -> Role
    ensures { result ≡ role_of want }
{
    match want {
        Want::Processes(_) => Role::ProcessCount,
        Want::States(_, p) => Role::StateCount(p),
        Want::TestA(_, _, kind) => Role::OfTestA(kind),
        Want::TestB(_, _, kind, a) => Role::OfTestB(kind, a),
        _ => Role::Other,
    }
}

// Keeps a count of processes or of states.
fn note(role: Role, v: u16, counts: &mut [u16])
    ensures { counts.new ≡ noted role v counts.old }
{
    match role {
        Role::ProcessCount => coding::set_at(counts, 0, v),
        Role::StateCount(p) => coding::set_at(counts, usize::from(p), v),
        Role::OfTestA(_) | Role::OfTestB(_, _) | Role::Other => {}
    }
}

// The first look at the whole source, from the first number that is wanted on: what may not stand there is refused, and what is left over.
fn look<S: Source>(most: u16, first: Want, source: S) -> Result<Seen, Refusal>
    ensures { Looked most first ((S.places source).code 0) result }
{
    let mut counts = [0u16; COUNTS];
    let mut want = first;
    let mut at: usize = 0;
    let mut n: usize = 0;
    // No `for`: how far a step goes shows only after it, so there is no index to range over.
    loop {
        let stand = skips::skip(want, source, at, n);
        want = stand.want;
        at = stand.at;
        n = stand.count;
        let number = source.number_at(at)?;
        match ranges::advance(most, want, number.value) {
            Step::NotAllowed => {
                return Err(Cause::NotAllowed.at(at));
            }
            Step::Last => {
                let count = ended_at(n + 1, number.next, source.size())?;
                return Ok(Seen { count, counts });
            }
            Step::More(more) => {
                note(role_of(want), number.value, &mut counts);
                want = more;
                at = number.next;
                n += 1;
            }
        }
    }
}

// So many numbers, if nothing is left over.
#[tactic(auto, unfolding(crate::specs::Table::ended_at))]
fn ended_at(n: usize, next: usize, size: usize) -> Answer
    ensures { result ≡ ended_at n next size }
{
    if next < size {
        Err(Cause::LeftOver.at(next))
    } else {
        Ok(n)
    }
}

// A table of at most `most` processes: how many numbers it has, or the first fault.
#[tactic(auto, unfolding(crate::specs::Table::table_grammar))]
fn check_table<S: Source>(most: u16, source: S) -> Answer
    ensures { result ≡ table_grammar most ((S.places source).code 0) }
{
    let seen = look(most, Want::Inputs, source)?;
    tests::second_look(most, &seen.counts, seen.count, source)
}

// An inputs record of so many input variables.
#[tactic(auto, unfolding(crate::specs::Table::inputs_grammar))]
fn check_inputs<S: Source>(inputs: u16, source: S) -> Answer
    ensures { result ≡ inputs_grammar inputs ((S.places source).code 0) }
{
    if ranges::MOST_VARIABLES < inputs {
        return Err(Cause::NotAllowed.at(0));
    }
    let seen = look(0, Want::Scans(inputs), source)?;
    Ok(seen.count)
}

// Reads a table's bytes into numbers.
pub fn read_table(code: &[u8], out: &mut [u16]) -> Answer
    ensures { (result ≡ read_by (table_grammar most_processes) code.now out.old)
        × (out.new ≡ stored result out.old (values (code_at code.now 0))) }
{
    coding::read_checked(check_table(ranges::MOST_PROCESSES, code), code, out)
}

// Writes a table's numbers as bytes.
#[tactic(auto, unfolding(coding::specs::Code::numbers_from))]
pub fn write_table(numbers: &[u16], buf: &mut [u8]) -> Answer
    ensures { (result ≡ write_by (table_grammar most_processes) numbers.now buf.old)
        × (buf.new ≡ stored result buf.old (bytes_of_all numbers.now)) }
{
    coding::write_checked(check_table(ranges::MOST_PROCESSES, numbers), numbers, buf)
}

// Reads the bytes of an inputs record into numbers.
pub fn read_inputs(inputs: u16, code: &[u8], out: &mut [u16]) -> Answer
    ensures { (result ≡ read_by (inputs_grammar inputs) code.now out.old)
        × (out.new ≡ stored result out.old (values (code_at code.now 0))) }
{
    coding::read_checked(check_inputs(inputs, code), code, out)
}

// Writes the numbers of an inputs record as bytes.
#[tactic(auto, unfolding(coding::specs::Code::numbers_from))]
pub fn write_inputs(inputs: u16, numbers: &[u16], buf: &mut [u8]) -> Answer
    ensures { (result ≡ write_by (inputs_grammar inputs) numbers.now buf.old)
        × (buf.new ≡ stored result buf.old (bytes_of_all numbers.now)) }
{
    coding::write_checked(check_inputs(inputs, numbers), numbers, buf)
}
