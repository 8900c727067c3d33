// The recursion over a requirement's nodes: operands are judged one level less deep, the second in what lies behind
// the first one's row.
ghost use Rattle.std.specs.Prelude.{suc};
ghost use Rattle.requirement.specs.Walking.{walk_at, over_one, over_two};
ghost use Rattle.judge.specs.Working.{HasRows, Rowed};

use crate::operators::MarkedTrace;
use crate::rows;
use requirement::{Kind, Node, One, Two};

// The row of the node whose code begins at `at`, in the first row of `work`. The place after its code; `at` itself where
// there is no node, of which the caller, who has checked the code, lends none (`Rowed` says nothing then).
#[cycle(judge_node_judge_one_judge_two)]
pub fn judge_node(
    kind: Kind,
    code: &[u8],
    at: usize,
    depth: u16,
    marked: &MarkedTrace,
    work: &mut [u8],
) -> usize
    requires { HasRows depth marked.now.trace.now work.old }
    ensures { Rowed (walk_at kind depth code.now at) marked.now.trace.now marked.now.start work.new result }
{
    if depth == 0 {
        return at;
    }
    let below = depth - 1;
    let Ok(found) = requirement::read_node(kind, code, at) else {
        return at;
    };
    let next = found.next;
    match found.node {
        Node::Atom(k) => {
            rows::fill_atom(marked.trace, usize::from(k), work);
            next
        }
        Node::Mark(mark) => {
            marked.fill_phase(mark, work);
            next
        }
        Node::OverOne(operator) => judge_one(operator, kind, code, next, below, marked, work),
        Node::OverTwo(operator) => judge_two(operator, kind, code, next, below, marked, work),
    }
}

// The row of an operator over the node whose code begins at `at`.
#[cycle(judge_node_judge_one_judge_two)]
fn judge_one(
    operator: One,
    kind: Kind,
    code: &[u8],
    at: usize,
    depth: u16,
    marked: &MarkedTrace,
    work: &mut [u8],
) -> usize
    requires { HasRows (suc depth) marked.now.trace.now work.old }
    ensures { Rowed (over_one operator (walk_at kind depth code.now at)) marked.now.trace.now marked.now.start
        work.new result }
{
    if depth == 0 {
        return at;
    }
    let next = judge_node(kind, code, at, depth, marked, work);
    marked.apply_one(operator, work);
    next
}

// The row of an operator over the two nodes whose codes begin at `at`.
#[cycle(judge_node_judge_one_judge_two)]
fn judge_two(
    operator: Two,
    kind: Kind,
    code: &[u8],
    at: usize,
    depth: u16,
    marked: &MarkedTrace,
    work: &mut [u8],
) -> usize
    requires { HasRows (suc depth) marked.now.trace.now work.old }
    ensures { Rowed (over_two operator (λ next. walk_at kind depth code.now next) (walk_at kind depth code.now at))
        marked.now.trace.now marked.now.start work.new result }
{
    if depth == 0 {
        return at;
    }
    let row = marked.row();
    let second = judge_node(kind, code, at, depth, marked, work);
    let next = judge_node(kind, code, second, depth, marked, &mut work[row..]);
    marked.apply_two(operator, work);
    next
}
