// The recursion over a requirement's nodes: operands are read one level less deep.
ghost use Rattle.std.specs.Prelude.{◌≡◌, ◌+◌, Ok};
ghost use Rattle.requirement.specs.Reading.{atom_of, tree_of};
ghost use Rattle.requirement.specs.Working.Summing.{part_sum, walked_sum, summed, whole_sum};

use crate::{Checked, Kind, Tag};
use coding::{Cause, Refusal, Source};

// What was read of a node and its operands: the place after them, how many nodes may still come, and how much of the depth
// was not used. Every level writes it to the one that is lent down the recursion: a level that answered it would copy it
// at each return, and a check took half as long again.
#[derive(Clone, Copy)]
pub struct Part {
    pub next: usize,
    pub left: u16,
    pub spare: u16,
}

// An atom's number, where below the atom so much of the depth is left. Apart from `read_atom`: that one answers the
// node, this one what may still come, and the one test that both make is no longer than a call.
fn atom<S: Source>(
    spare: u16,
    left: u16,
    source: S,
    place: usize,
    part: &mut Part,
) -> Result<(), Refusal>
    ensures { walked_sum (S.places source) result part.new
        ≡ summed (spare + 1) (atom_of left ((S.places source).code place)) }
{
    let number = source.number_at(place)?;
    if crate::HIGHEST_ATOM < number.value {
        return Err(Cause::NoSuchNode.at(place));
    }
    *part = Part {
        next: number.next,
        left,
        spare,
    };
    Ok(())
}

// A node at most `depth` deep, where `left` nodes may still come. A tag that is unknown is refused before a limit that is
// passed.
pub fn tree<S: Source>(
    kind: Kind,
    depth: u16,
    left: u16,
    source: S,
    at: usize,
    part: &mut Part,
) -> Result<(), Refusal>
    ensures { walked_sum (S.places source) result part.new
        ≡ summed depth (tree_of kind depth left ((S.places source).code at)) }
{
    let number = source.number_at(at)?;
    let next = number.next;
    let Some(tag) = crate::tag_in(kind, number.value) else {
        return Err(Cause::NoSuchNode.at(at));
    };
    if depth == 0 || left == 0 {
        return Err(Cause::PastLimit.at(at));
    }
    let fewer = left - 1;
    let below = depth - 1;
    match tag {
        Tag::Mark(_) => {
            *part = Part {
                next,
                left: fewer,
                spare: below,
            };
            Ok(())
        }
        Tag::Atom => atom(below, fewer, source, next, part),
        // By `?`, since an answer that is handed on as it is would be copied.
        Tag::OverOne(_) => {
            tree(kind, below, fewer, source, next, part)?;
            Ok(())
        }
        Tag::OverTwo(_) => {
            tree(kind, below, fewer, source, next, part)?;
            let spare = part.spare;
            tree(kind, below, part.left, source, part.next, part)?;
            part.spare = spare.min(part.spare);
            Ok(())
        }
    }
}

// The answer for the whole source, where its first node and that one's operands gave `part`: nothing may be left over.
pub fn whole<S: Source>(kind: Kind, part: &Part, source: S) -> Result<Checked, Refusal>
    ensures { result ≡ whole_sum kind (part_sum (S.places source) (Ok part.now)) }
{
    if part.next < source.size() {
        return Err(Cause::LeftOver.at(part.next));
    }
    Ok(Checked {
        nodes: crate::node_limit(kind).saturating_sub(part.left),
        depth: crate::depth_limit(kind).saturating_sub(part.spare),
    })
}
