// The three blocks of an input.
ghost use Rattle.std.specs.Prelude.{◌≡◌};
ghost use Rattle.coding.specs.Block.{block_at};
ghost use Rattle.report.specs.Framing.{with_first, framing_of};

use coding::{Cause, Refusal, Span};

// The most bytes that an input may have.
const LONGEST_INPUT: usize = 60000;

// Where the table, the inputs and the requirement stand.
#[derive(Clone, Copy)]
pub struct Blocks {
    pub table: Span,
    pub inputs: Span,
    pub requirement: Span,
}

// All three, one behind another, and nothing behind them.
fn three_blocks(input: &[u8]) -> Result<Blocks, Refusal>
    ensures { result ≡ with_first input.now (block_at input.now 0) }
{
    let table = coding::block_at(input, 0)?;
    let inputs = coding::block_at(input, table.end)?;
    let requirement = coding::block_at(input, inputs.end)?;
    if requirement.end < input.len() {
        return Err(Cause::LeftOver.at(requirement.end));
    }
    Ok(Blocks {
        table,
        inputs,
        requirement,
    })
}

// The blocks of an input that is not too long.
#[tactic(auto, unfolding(crate::specs::Framing::framing_of))]
pub fn framing(input: &[u8]) -> Result<Blocks, Refusal>
    ensures { result ≡ framing_of input.now }
{
    if LONGEST_INPUT < input.len() {
        return Err(Cause::CutShort.at(LONGEST_INPUT));
    }
    three_blocks(input)
}
