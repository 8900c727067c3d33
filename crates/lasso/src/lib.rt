// The bytes of a lasso trace: well-formed or refused, and what stands at a position.
#![tactic(auto)]

ghost use Rattle.std.specs.Prelude.{◌≡◌, ◌<◌, ◌-◌};
ghost use Rattle.std.specs.Result.{result_and};
ghost use Rattle.coding.specs.Refusal.{Answer};
ghost use Rattle.bits.specs.Rows.{after_of};
ghost use Rattle.bits.specs.Bits.{bit_b};
ghost use Rattle.lasso.specs.Bytes.{phase_number, positions, phase_byte, atom_at, inputs_in};
ghost use Rattle.lasso.specs.Checking.{length_ok, may_follow, steps_from, output_from, check_trace};

use coding::{Answer, Cause, Refusal};
use requirement::Phase;

// The byte of a phase. (Not `u8::from`: the phases are a type of `requirement`.)
pub fn phase_number(phase: Phase) -> u8
    ensures { result ≡ phase_number phase }
{
    match phase {
        Phase::Input => 0,
        Phase::Exe => 1,
        Phase::Output => 2,
    }
}

// The phase byte of a position.
fn phase_in(trace: &[u8], p: usize) -> u8
    requires { p < positions trace.now }
    ensures { result ≡ phase_byte trace.now p }
{
    trace[p * 5]
}

// The phase byte of a position; 0 past the end, where it cannot fail.
#[tactic(auto, using(crate::proofs::Looking::no_phase))]
pub fn phase_byte(trace: &[u8], p: usize) -> u8
    ensures { result ≡ phase_byte trace.now p }
{
    if trace.len() / 5 < p {
        0
    } else {
        trace.get(p * 5).copied().unwrap_or(0)
    }
}

// Digit k of x, for k below 8.
#[tactic(auto, using(bits::proofs::Digits::bit_shr))]
fn digit_of(x: u8, k: u16) -> bool
    requires { k < 8 }
    ensures { result ≡ bit_b x k }
{
    (x >> k) % 2 == 1
}

// Whether atom a holds at a position; none above 31 does, and none past the end.
#[tactic(auto, using(crate::proofs::Looking::atoms))]
pub fn atom_at(trace: &[u8], p: usize, a: u16) -> bool
    ensures { result ≡ atom_at trace.now a p }
{
    if 31 < a || trace.len() / 5 < p {
        return false;
    }
    match trace.get(p * 5 + 1 + usize::from(a / 8)) {
        Some(byte) => digit_of(*byte, a % 8),
        None => false,
    }
}

#[tactic(auto, unfolding(crate::specs::Checking::length_ok))]
fn length_ok(n: usize) -> bool
    ensures { result ≡ length_ok n }
{
    (1..=20480).contains(&n) && n % 5 == 0
}

#[tactic(auto, unfolding(crate::specs::Checking::may_follow))]
fn may_follow(p: u8, q: u8) -> bool
    ensures { result ≡ may_follow p q }
{
    matches!((p, q), (0, 1) | (1, 1 | 2) | (2, 0))
}

// The position after p of a lasso of n positions.
fn after(n: usize, start: usize, p: usize) -> usize
    requires { p < n }
    ensures { result ≡ after_of n start p }
{
    if p + 1 < n { p + 1 } else { start }
}

// Whether every position is a phase and is followed by what may follow it, at the join too; else the first that is not.
#[tactic(auto, using(crate::proofs::Steps::steps))]
fn check_steps(trace: &[u8], start: usize) -> Result<(), Refusal>
    requires { start < positions trace.now }
    ensures { (fine : Answer) →
        result_and result fine ≡ steps_from may_follow trace.now start (positions trace.now) 0 fine }
{
    let n = trace.len() / 5;
    for p in 0..n {
        let next = phase_in(trace, after(n, start, p));
        if !may_follow(phase_in(trace, p), next) {
            return Err(Cause::BadTrace.at(p));
        }
    }
    Ok(())
}

// Whether the loop holds an Output.
#[tactic(auto, using(crate::proofs::Steps::outputs))]
fn output_in_loop(trace: &[u8], start: usize) -> bool
    ensures { result ≡ output_from trace.now (positions trace.now - start) start }
{
    for p in start..trace.len() / 5 {
        if phase_in(trace, p) == 2 {
            return true;
        }
    }
    false
}

// A trace and its loop start: how many positions, or refusal 9.
#[tactic(auto, unfolding(crate::specs::Checking::check_by))]
pub fn check(trace: &[u8], start: usize) -> Answer
    ensures { result ≡ check_trace trace.now start }
{
    let size = trace.len();
    if !length_ok(size) {
        return Err(Cause::BadTrace.at(size));
    }
    let n = size / 5;
    if n <= start {
        return Err(Cause::BadTrace.at(n));
    }
    check_steps(trace, start)?;
    if !output_in_loop(trace, start) {
        return Err(Cause::BadTrace.at(start));
    }
    Ok(n)
}

// How many positions are Input.
#[tactic(auto, using(crate::proofs::Positions::counts), unfolding(bits::specs::Bits::count_b))]
pub fn count_inputs(trace: &[u8]) -> usize
    ensures { result ≡ inputs_in trace.now }
{
    let mut count: usize = 0;
    for p in 0..trace.len() / 5 {
        if phase_in(trace, p) == 0 {
            count += 1;
        }
    }
    count
}
