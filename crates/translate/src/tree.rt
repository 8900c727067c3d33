// The recursion over a requirement's nodes: operands are translated first, one level less deep.
ghost use Rattle.requirement.specs.Walking.{walk_at, over_one, over_two};
ghost use Rattle.translate.specs.Writing.{untranslated, Wrote};

use crate::forms;
use crate::writing::Writing;
use requirement::{Kind, Node, One, Two};

impl Writing<'_> {
    // Translates the node whose code begins at `at`, at most `depth` deep. The place after its code; `at` itself where
    // there is no node, of which the caller, who has checked the code, lends none (`Wrote` says nothing then).
    #[cycle(translate_node_translate_one_translate_two)]
    pub fn translate_node(&mut self, code: &[u8], at: usize, depth: u16) -> usize
        ensures { Wrote (walk_at untranslated depth code.now at) self.old self.new result }
    {
        if depth == 0 {
            return at;
        }
        let below = depth - 1;
        let Ok(found) = requirement::read_node(Kind::Untranslated, code, at) else {
            return at;
        };
        let next = found.next;
        match found.node {
            // An atom is 31 at most.
            Node::Atom(k) => {
                self.put(&[forms::ATOM, (k % 256) as u8]);
                next
            }
            Node::Mark(mark) => {
                self.put(&[forms::mark_number(mark)]);
                next
            }
            Node::OverOne(operator) => self.translate_one(operator, code, next, below),
            Node::OverTwo(operator) => self.translate_two(operator, code, next, below),
        }
    }

    // An operator over the node whose code begins at `at`.
    #[cycle(translate_node_translate_one_translate_two)]
    fn translate_one(&mut self, operator: One, code: &[u8], at: usize, depth: u16) -> usize
        ensures { Wrote (over_one operator (walk_at untranslated depth code.now at)) self.old self.new result }
    {
        self.one_before(operator);
        let next = self.translate_node(code, at, depth);
        self.one_behind(operator);
        next
    }

    // An operator over the two nodes whose codes begin at `at`.
    #[cycle(translate_node_translate_one_translate_two)]
    fn translate_two(&mut self, operator: Two, code: &[u8], at: usize, depth: u16) -> usize
        ensures { Wrote (over_two operator (λ next. walk_at untranslated depth code.now next)
            (walk_at untranslated depth code.now at)) self.old self.new result }
    {
        self.two_before(operator);
        let second = self.translate_node(code, at, depth);
        self.two_between(operator);
        let next = self.translate_node(code, second, depth);
        self.two_behind(operator);
        next
    }
}
