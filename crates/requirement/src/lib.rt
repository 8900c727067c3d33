// Requirements: the nodes they are made of, and the reader and the writer of their code.
#![tactic(auto)]

mod tree;

ghost use Rattle.std.specs.Prelude.{◌≡◌};
ghost use Rattle.coding.specs.Code.{code_at, values, bytes_of_all};
ghost use Rattle.coding.specs.Room.{read_by, write_by, stored};
ghost use Rattle.requirement.specs.Tags.{tag_of};
ghost use Rattle.requirement.specs.Limits.{node_limit, depth_limit, highest_tag, tag_in};
ghost use Rattle.requirement.specs.Reading.{node_at, atom_at, checked, grammar};
ghost use Rattle.coding.specs.Number.{number_at};

use coding::{Answer, Cause, Refusal, Source};

pub const HIGHEST_ATOM: u16 = 31;

// The phases of a scan, which are the marks too.
#[derive(Clone, Copy)]
pub enum Phase {
    Input,
    Exe,
    Output,
}

// The two ends of a scan, by which the i and the o operators count: the states just after a read, and those just after a write.
#[derive(Clone, Copy)]
pub enum End {
    Reads,
    Writes,
}

// The family of a temporal operator: plain; e, which looks within a scan; i and o, which look at each end of one kind.
#[derive(Clone, Copy)]
pub enum Family {
    Plain,
    Within,
    Each(End),
}

// The operators over one node: not, X, F, G.
#[derive(Clone, Copy)]
pub enum One {
    Not,
    Next(Family),
    Ever(Family),
    Always(Family),
}

// The operators over two nodes: and, U.
#[derive(Clone, Copy)]
pub enum Two {
    And,
    Until(Family),
}

// A node: an atom and its number, a mark, or an operator over the nodes that follow.
#[derive(Clone, Copy)]
pub enum Node {
    Atom(u16),
    Mark(Phase),
    OverOne(One),
    OverTwo(Two),
}

// What a tag asks for. It is no Node, whose atom has its number: behind the tag that is yet to be read.
#[derive(Clone, Copy)]
pub enum Tag {
    Atom,
    Mark(Phase),
    OverOne(One),
    OverTwo(Two),
}

// Which of the two is read.
#[derive(Clone, Copy)]
pub enum Kind {
    Untranslated,
    Translated,
}

// A node that was read, and the place after it.
#[derive(Clone, Copy)]
pub struct NodeRead {
    pub node: Node,
    pub next: usize,
}

// How many nodes an accepted requirement has, and how deep it is.
#[derive(Clone, Copy)]
pub struct Checked {
    pub nodes: u16,
    pub depth: u16,
}

// What a tag asks for, if it is known. (No `TryFrom`: a number that is no tag is no error here, and docs/PROMISES.md
// names this function.)
#[tactic(auto, unfolding(crate::specs::Tags::tag_of))]
pub fn tag_of(v: u16) -> Option<Tag>
    ensures { result ≡ tag_of v }
{
    match v {
        0 => Some(Tag::Atom),
        1 => Some(Tag::OverOne(One::Not)),
        2 => Some(Tag::OverTwo(Two::And)),
        3 => Some(Tag::Mark(Phase::Input)),
        4 => Some(Tag::Mark(Phase::Exe)),
        5 => Some(Tag::Mark(Phase::Output)),
        8 => Some(Tag::OverOne(One::Next(Family::Plain))),
        9 => Some(Tag::OverOne(One::Ever(Family::Plain))),
        10 => Some(Tag::OverOne(One::Always(Family::Plain))),
        11 => Some(Tag::OverTwo(Two::Until(Family::Plain))),
        12 => Some(Tag::OverOne(One::Next(Family::Within))),
        13 => Some(Tag::OverOne(One::Ever(Family::Within))),
        14 => Some(Tag::OverOne(One::Always(Family::Within))),
        15 => Some(Tag::OverTwo(Two::Until(Family::Within))),
        16 => Some(Tag::OverOne(One::Next(Family::Each(End::Reads)))),
        17 => Some(Tag::OverOne(One::Ever(Family::Each(End::Reads)))),
        18 => Some(Tag::OverOne(One::Always(Family::Each(End::Reads)))),
        19 => Some(Tag::OverTwo(Two::Until(Family::Each(End::Reads)))),
        20 => Some(Tag::OverOne(One::Next(Family::Each(End::Writes)))),
        21 => Some(Tag::OverOne(One::Ever(Family::Each(End::Writes)))),
        22 => Some(Tag::OverOne(One::Always(Family::Each(End::Writes)))),
        23 => Some(Tag::OverTwo(Two::Until(Family::Each(End::Writes)))),
        _ => None,
    }
}

// The limits of a kind, a function for each: docs/PROMISES.md names the three.
pub fn node_limit(kind: Kind) -> u16
    ensures { result ≡ node_limit kind }
{
    match kind {
        Kind::Untranslated => 64,
        Kind::Translated => 704,
    }
}

pub fn depth_limit(kind: Kind) -> u16
    ensures { result ≡ depth_limit kind }
{
    match kind {
        Kind::Untranslated => 16,
        Kind::Translated => 76,
    }
}

pub fn highest_tag(kind: Kind) -> u16
    ensures { result ≡ highest_tag kind }
{
    match kind {
        Kind::Untranslated => 23,
        Kind::Translated => 11,
    }
}

// What a tag asks for, where the kind has it.
#[tactic(auto, unfolding(crate::specs::Limits::tag_in))]
pub fn tag_in(kind: Kind, v: u16) -> Option<Tag>
    ensures { result ≡ tag_in kind v }
{
    if highest_tag(kind) < v {
        None
    } else {
        tag_of(v)
    }
}

// The node whose tag stands at `at`.
#[tactic(auto, unfolding(crate::specs::Reading::node_at))]
pub fn read_node(kind: Kind, code: &[u8], at: usize) -> Result<NodeRead, Refusal>
    ensures { result ≡ node_at kind code.now at }
{
    let number = coding::read_number(code, at)?;
    let next = number.next;
    let Some(tag) = tag_in(kind, number.value) else {
        return Err(Cause::NoSuchNode.at(at));
    };
    match tag {
        Tag::Atom => read_atom(code, next),
        Tag::Mark(mark) => Ok(NodeRead {
            node: Node::Mark(mark),
            next,
        }),
        Tag::OverOne(operator) => Ok(NodeRead {
            node: Node::OverOne(operator),
            next,
        }),
        Tag::OverTwo(operator) => Ok(NodeRead {
            node: Node::OverTwo(operator),
            next,
        }),
    }
}

// The atom whose number stands at a place.
fn read_atom(code: &[u8], place: usize) -> Result<NodeRead, Refusal>
    ensures { result ≡ atom_at place (number_at code.now place) }
{
    let number = coding::read_number(code, place)?;
    if HIGHEST_ATOM < number.value {
        return Err(Cause::NoSuchNode.at(place));
    }
    Ok(NodeRead {
        node: Node::Atom(number.value),
        next: number.next,
    })
}

// The whole source as a requirement: how many nodes and how deep, or the first fault.
pub fn check<S: Source>(kind: Kind, source: S) -> Result<Checked, Refusal>
    ensures { result ≡ checked kind ((S.places source).code 0) }
{
    let mut part = tree::Part {
        next: 0,
        left: 0,
        spare: 0,
    };
    tree::tree(
        kind,
        depth_limit(kind),
        node_limit(kind),
        source,
        0,
        &mut part,
    )?;
    tree::whole(kind, &part, source)
}

// Reads a requirement's bytes into numbers.
#[tactic(auto, unfolding(crate::specs::Reading::grammar))]
pub fn read(kind: Kind, code: &[u8], out: &mut [u16]) -> Answer
    ensures { (result ≡ read_by (grammar kind) code.now out.old)
        × (out.new ≡ stored result out.old (values (code_at code.now 0))) }
{
    check(kind, code)?;
    coding::read_checked(Ok(coding::count_numbers(code)), code, out)
}

// Writes a requirement's numbers as bytes.
#[tactic(auto, unfolding(crate::specs::Reading::grammar, coding::specs::Code::numbers_from), using(coding::proofs::Grammars::numbered_is))]
pub fn write(kind: Kind, numbers: &[u16], buf: &mut [u8]) -> Answer
    ensures { (result ≡ write_by (grammar kind) numbers.now buf.old)
        × (buf.new ≡ stored result buf.old (bytes_of_all numbers.now)) }
{
    check(kind, numbers)?;
    coding::write_checked(Ok(numbers.len()), numbers, buf)
}
