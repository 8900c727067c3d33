// The translation table: the numbers of each operator's form before, between and behind the codes of its operands. Each
// number is below 128, so it is its own byte. (A function for each place, with the numbers where they are put: a table
// that answers an operator's three rows was tried, and translating took 18 in 100 longer.)
ghost use Rattle.std.specs.Prelude.{◌≡◌};
ghost use Rattle.requirement.specs.Tags.{mark_no};
ghost use Rattle.translate.specs.Writing.{mark_of, one_before, one_behind, two_before, two_between, two_behind, Puts};

use crate::writing::Writing;
use requirement::{End, Family, One, Phase, Two};

pub const ATOM: u8 = 0;

const NOT: u8 = 1;

const AND: u8 = 2;

const INPUT: u8 = 3;

const EXE: u8 = 4;

const OUTPUT: u8 = 5;

const NEXT: u8 = 8;

const EVER: u8 = 9;

const ALWAYS: u8 = 10;

const UNTIL: u8 = 11;

// The number of a mark in a requirement, which is not that of the phase in a trace. (Not `u8::from`: the marks are a
// type of `requirement`.)
pub fn mark_number(mark: Phase) -> u8
    ensures { result ≡ mark_no mark }
{
    match mark {
        Phase::Input => INPUT,
        Phase::Exe => EXE,
        Phase::Output => OUTPUT,
    }
}

// The number of the mark of an end. (Not `u8::from`: the ends are a type of `requirement` too.)
fn mark_of(end: End) -> u8
    ensures { result ≡ mark_of end }
{
    match end {
        End::Reads => INPUT,
        End::Writes => OUTPUT,
    }
}

impl Writing<'_> {
    // The numbers before the operand.
    pub fn one_before(&mut self, operator: One)
        ensures { Puts (one_before operator) self.old self.new }
    {
        match operator {
            One::Not => self.put(&[NOT]),
            One::Next(Family::Plain) => self.put(&[NEXT]),
            One::Next(Family::Within) => self.put(&[NEXT, AND, EXE]),
            One::Next(Family::Each(end)) => {
                let mark = mark_of(end);
                self.put(&[
                    UNTIL, NOT, mark, AND, mark, NEXT, UNTIL, NOT, mark, AND, mark,
                ])
            }
            One::Ever(Family::Plain) => self.put(&[EVER]),
            One::Ever(Family::Within) => self.put(&[UNTIL, NOT, OUTPUT, AND, EXE]),
            One::Ever(Family::Each(end)) => self.put(&[EVER, AND, mark_of(end)]),
            One::Always(Family::Plain) => self.put(&[ALWAYS]),
            One::Always(Family::Within) => self.put(&[UNTIL, AND]),
            One::Always(Family::Each(end)) => self.put(&[ALWAYS, NOT, AND, mark_of(end), NOT]),
        }
    }

    // The numbers behind the operand. Only G^e has any: Exe, and then Output.
    #[tactic(auto, using(crate::proofs::Putting::puts_none))]
    pub fn one_behind(&mut self, operator: One)
        ensures { Puts (one_behind operator) self.old self.new }
    {
        match operator {
            One::Not | One::Next(_) | One::Ever(_) => {}
            One::Always(Family::Plain | Family::Each(_)) => {}
            One::Always(Family::Within) => self.put(&[EXE, OUTPUT]),
        }
    }

    // The numbers before the first operand.
    pub fn two_before(&mut self, operator: Two)
        ensures { Puts (two_before operator) self.old self.new }
    {
        match operator {
            Two::And => self.put(&[AND]),
            Two::Until(Family::Plain) => self.put(&[UNTIL]),
            Two::Until(Family::Within) => self.put(&[UNTIL, AND]),
            Two::Until(Family::Each(end)) => self.put(&[UNTIL, NOT, AND, mark_of(end), NOT]),
        }
    }

    // The numbers between the operands.
    #[tactic(auto, using(crate::proofs::Putting::puts_none))]
    pub fn two_between(&mut self, operator: Two)
        ensures { Puts (two_between operator) self.old self.new }
    {
        match operator {
            Two::And => {}
            Two::Until(Family::Plain) => {}
            Two::Until(Family::Within) => self.put(&[EXE, AND]),
            Two::Until(Family::Each(end)) => self.put(&[AND, mark_of(end)]),
        }
    }

    // The numbers behind the second operand. Only U^e has any: Exe.
    #[tactic(auto, using(crate::proofs::Putting::puts_none))]
    pub fn two_behind(&mut self, operator: Two)
        ensures { Puts (two_behind operator) self.old self.new }
    {
        match operator {
            Two::And => {}
            Two::Until(Family::Plain | Family::Each(_)) => {}
            Two::Until(Family::Within) => self.put(&[EXE]),
        }
    }
}
