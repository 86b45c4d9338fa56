// The lists of a table of chains. Each walk ends by the list's count and by the table's capacity.
ghost use Rattle.std.specs.Prelude.{◌≤◌};
ghost use Rattle.std.specs.Iterator.{at_most};

use crate::State;
use crate::layout::{Chains, Elements};

// The elements of a list in order, from `next` on, of which `left` are left.
#[derive(Clone, Copy)]
pub struct Chain<'a> {
    t: &'a [u32],
    elements: Elements,
    next: u32,
    left: u32,
}

impl<'a> State<'a> {
    // How many elements a list has; never more than there are.
    pub(crate) fn count(self, chains: Chains, list: u32) -> u32
        ensures { result ≤ chains.capacity }
    {
        let [count, _last] = chains.ends.row(self.0, list);
        count.min(chains.capacity)
    }

    // A list, from its first element on. To find that, it goes back from its last.
    pub(crate) fn chain(self, chains: Chains, list: u32) -> Chain<'a> {
        let elements = chains.elements;
        let [_count, mut next] = chains.ends.row(self.0, list);
        let left = self.count(chains, list);
        // One turn for each element but one: fewer than the capacity.
        for _ in 1..left {
            let [_list, _place, before, _after] = elements.row(self.0, next);
            next = before;
        }
        Chain {
            t: self.0,
            elements,
            next,
            left,
        }
    }
}

impl Iterator for Chain<'_> {
    type Item = u32;

    ghost remaining = { λ chain. at_most chain.left };

    fn next(&mut self) -> Option<u32> {
        self.left = self.left.checked_sub(1)?;
        let e = self.next;
        let [_list, _place, _before, after] = self.elements.row(self.t, e);
        self.next = after;
        Some(e)
    }
}
