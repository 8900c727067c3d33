// The C interface: a function for each public entry, its answer in the paper's numbers (include/scancheck.h).
#![tactic(auto)]

ghost use Rattle.std.specs.Prelude.{◌≡◌, length};
ghost use Rattle.coding.specs.declared.Told.{Told};
ghost use Rattle.coding.specs.Number.{number_at, bytes_of};
ghost use Rattle.coding.specs.Code.{code_at};
ghost use Rattle.coding.specs.Refusal.{accepted, refusal, number_told, answer_told};
ghost use Rattle.coding.specs.Room.{wrote_number, stored};
ghost use Rattle.ranges.specs.Limits.{most_processes};
ghost use Rattle.requirement.specs.Reading.{checked, checked_told, grammar};
ghost use Rattle.table.specs.Table.{table_grammar, inputs_grammar};
ghost use Rattle.sheet.specs.Sheet.{find_in, found_told};
ghost use Rattle.translate.specs.Writing.{translated};
ghost use Rattle.bits.specs.Bits.{digit};
ghost use Rattle.lasso.specs.Bytes.{trace_of};
ghost use Rattle.judge.specs.Judging.{checks_of, judged_told};
ghost use Rattle.run.specs.Trace.{numbers_in, run_of, left_in, ran_told};
ghost use Rattle.interface.specs.Calls.{kind_of, told_by, read_told, read_leaves, write_told, write_leaves, translate_leaves, JudgesTold};

use coding::{Number, Refusal, Span, Told};
use judge::Verdict;
use requirement::{Checked, Kind};
use run::{Closed, Stop};

// What is told of an accepted answer: two numbers.
trait Accepted: Copy {
    ghost told: { Self → Told };

    fn told(self) -> Told
        ensures { result ≡ told self };
}

impl Accepted for Number {
    ghost told = { λ number. accepted number.value number.next };

    fn told(self) -> Told {
        accept(usize::from(self.value), self.next)
    }
}

impl Accepted for usize {
    ghost told = { λ n. accepted n 0 };

    fn told(self) -> Told {
        accept(self, 0)
    }
}

impl Accepted for Checked {
    ghost told = { λ sizes. accepted sizes.nodes sizes.depth };

    fn told(self) -> Told {
        accept(usize::from(self.nodes), usize::from(self.depth))
    }
}

impl Accepted for Span {
    ghost told = { λ span. accepted span.begin span.end };

    fn told(self) -> Told {
        accept(self.begin, self.end)
    }
}

impl Accepted for Closed {
    ghost told = { λ closed. accepted closed.positions closed.start };

    fn told(self) -> Told {
        accept(self.positions, self.start)
    }
}

impl Accepted for Verdict {
    ghost told = { λ verdict. accepted (digit verdict.holds) verdict.count };

    fn told(self) -> Told {
        accept(usize::from(self.holds), self.count)
    }
}

fn accept(first: usize, second: usize) -> Told
    ensures { result ≡ accepted first second }
{
    Told {
        refusal: 0,
        first: first as u64,
        second: second as u64,
    }
}

fn refuse(why: Refusal) -> Told
    ensures { result ≡ refusal why.cause why.place }
{
    Told {
        refusal: u64::from(coding::number_of(why.cause)),
        first: why.place as u64,
        second: 0,
    }
}

// An answer in the paper's numbers.
fn tell<T: Accepted>(answer: Result<T, Refusal>) -> Told
    ensures { result ≡ told_by T.told answer }
{
    match answer {
        Ok(accepted) => accepted.told(),
        Err(why) => refuse(why),
    }
}

fn tell_ran(ran: Result<Closed, Stop>) -> Told
    ensures { result ≡ ran_told ran }
{
    tell(ran.map_err(Stop::told))
}

// The kind, which C tells as a bool.
fn kind_of(translated: bool) -> Kind
    ensures { result ≡ kind_of translated }
{
    if translated {
        Kind::Translated
    } else {
        Kind::Untranslated
    }
}

// The number at a place: its value and the place after it.
#[tactic(auto, using(crate::proofs::Tells::number_is))]
#[unsafe(no_mangle)]
pub extern "C" fn scancheck_read_number(code: &[u8], at: usize) -> Told
    ensures { result ≡ number_told (number_at code.now at) }
{
    tell(coding::read_number(code, at))
}

// A number into the first bytes of a buffer: how many.
#[tactic(auto, using(crate::proofs::Tells::answer_is))]
#[unsafe(no_mangle)]
pub extern "C" fn scancheck_write_number(v: u16, buf: &mut [u8]) -> Told
    ensures answers { result ≡ answer_told (wrote_number v buf.old) }
    ensures leaves { buf.new ≡ stored (wrote_number v buf.old) buf.old (bytes_of v) }
{
    tell(coding::write_number(v, buf))
}

// A requirement's bytes: how many nodes, and how deep.
#[tactic(auto, using(crate::proofs::Tells::checked_is))]
#[unsafe(no_mangle)]
pub extern "C" fn scancheck_check_requirement(translated: bool, code: &[u8]) -> Told
    ensures { result ≡ checked_told (checked (kind_of translated) (code_at code.now 0)) }
{
    tell(requirement::check(kind_of(translated), code))
}

// A requirement's bytes into numbers: how many.
#[tactic(auto, using(crate::proofs::Tells::answer_is))]
#[unsafe(no_mangle)]
pub extern "C" fn scancheck_read_requirement(translated: bool, code: &[u8], out: &mut [u16]) -> Told
    ensures answers { result ≡ read_told (grammar (kind_of translated)) code.now out.old }
    ensures leaves { out.new ≡ read_leaves (grammar (kind_of translated)) code.now out.old }
{
    tell(requirement::read(kind_of(translated), code, out))
}

// A requirement's numbers into bytes: how many.
#[tactic(auto, using(crate::proofs::Tells::answer_is))]
#[unsafe(no_mangle)]
pub extern "C" fn scancheck_write_requirement(
    translated: bool,
    numbers: &[u16],
    buf: &mut [u8],
) -> Told
    ensures answers { result ≡ write_told (grammar (kind_of translated)) numbers.now buf.old }
    ensures leaves { buf.new ≡ write_leaves (grammar (kind_of translated)) numbers.now buf.old }
{
    tell(requirement::write(kind_of(translated), numbers, buf))
}

// A table's bytes into numbers: how many.
#[tactic(auto, using(crate::proofs::Tells::answer_is))]
#[unsafe(no_mangle)]
pub extern "C" fn scancheck_read_table(code: &[u8], out: &mut [u16]) -> Told
    ensures answers { result ≡ read_told (table_grammar most_processes) code.now out.old }
    ensures leaves { out.new ≡ read_leaves (table_grammar most_processes) code.now out.old }
{
    tell(table::read_table(code, out))
}

// A table's numbers into bytes: how many.
#[tactic(auto, using(crate::proofs::Tells::answer_is))]
#[unsafe(no_mangle)]
pub extern "C" fn scancheck_write_table(numbers: &[u16], buf: &mut [u8]) -> Told
    ensures answers { result ≡ write_told (table_grammar most_processes) numbers.now buf.old }
    ensures leaves { buf.new ≡ write_leaves (table_grammar most_processes) numbers.now buf.old }
{
    tell(table::write_table(numbers, buf))
}

// The bytes of an inputs record of so many input variables into numbers: how many.
#[tactic(auto, using(crate::proofs::Tells::answer_is))]
#[unsafe(no_mangle)]
pub extern "C" fn scancheck_read_inputs(inputs: u16, code: &[u8], out: &mut [u16]) -> Told
    ensures answers { result ≡ read_told (inputs_grammar inputs) code.now out.old }
    ensures leaves { out.new ≡ read_leaves (inputs_grammar inputs) code.now out.old }
{
    tell(table::read_inputs(inputs, code, out))
}

// The numbers of an inputs record into bytes: how many.
#[tactic(auto, using(crate::proofs::Tells::answer_is))]
#[unsafe(no_mangle)]
pub extern "C" fn scancheck_write_inputs(inputs: u16, numbers: &[u16], buf: &mut [u8]) -> Told
    ensures answers { result ≡ write_told (inputs_grammar inputs) numbers.now buf.old }
    ensures leaves { buf.new ≡ write_leaves (inputs_grammar inputs) numbers.now buf.old }
{
    tell(table::write_inputs(inputs, numbers, buf))
}

// A requirement's translation as its code: how many bytes.
#[tactic(auto, using(crate::proofs::Tells::answer_is))]
#[unsafe(no_mangle)]
pub extern "C" fn scancheck_translate(code: &[u8], out: &mut [u8]) -> Told
    ensures answers { result ≡ answer_told (translated code.now out.old) }
    ensures leaves { out.new ≡ translate_leaves code.now out.old }
{
    tell(translate::translate(code, out))
}

// Runs a table over recorded inputs into a trace: how many positions, and where the loop starts.
#[unsafe(no_mangle)]
pub extern "C" fn scancheck_run(table: &[u8], inputs: &[u8], trace: &mut [u8]) -> Told
    ensures answers { result ≡ ran_told (run_of (length trace.old) table.now inputs.now) }
    ensures leaves { trace.new ≡ left_in (run_of (length trace.old) table.now inputs.now)
        (numbers_in table.now) (numbers_in inputs.now) trace.old }
{
    tell_ran(run::run(table, inputs, trace))
}

// Judges a requirement on a lasso trace: the verdict at moment 0, and how many findings the list then holds.
#[unsafe(no_mangle)]
pub extern "C" fn scancheck_judge(
    translated: bool,
    code: &[u8],
    trace: &[u8],
    start: usize,
    work: &mut [u8],
    list: &mut [u8],
) -> Told
    ensures { JudgesTold (checks_of (kind_of translated) code.now trace.now start (length work.old) (length list.old))
        (trace_of trace.now start) work.old list.old work.new list.new result }
{
    tell(judge::judge(kind_of(translated), code, trace, start, work, list))
}

// Where in a sheet the body of a name begins and ends.
#[tactic(auto, using(crate::proofs::Tells::found_is))]
#[unsafe(no_mangle)]
pub extern "C" fn scancheck_find(sheet: &[u8], name: &[u8]) -> Told
    ensures { result ≡ found_told (find_in sheet.now name.now) }
{
    tell(sheet::find(sheet, name))
}
