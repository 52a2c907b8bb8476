// The heaps of a store: the front entry is at the root, and the two subtrees of a root that leaves are melded.
ghost use Rattle.elements.proofs.Strictness.{strict};
ghost use Rattle.leftist.specs.Leftist.{leftist};
ghost use Rattle.leftist.specs.Lawful.{lawful};

use crate::links::Link;
use crate::trees;
use cells::HeapLink;
use elements::{Entry, Ordered};
use heap_store::HeapStore;

// A store of 32 queues, each a leftist heap.
pub type Leftist<'a, T> = HeapStore<'a, Link, T>;

impl<T: Ordered + Copy> HeapLink<T> for Link {
    ghost form = { leftist };

    fn single() -> Link {
        Link::single()
    }

    fn idle(next: Option<u16>) -> Link {
        Link::idle(next)
    }

    fn next_idle(&self) -> Option<u16> {
        self.right
    }

    fn meld(
        links: &mut [Link],
        entries: &[Entry<T>],
        a: Option<u16>,
        b: Option<u16>,
    ) -> Option<u16> {
        trees::meld(links, entries, a, b)
    }

    fn front(_links: &[Link], _entries: &[Entry<T>], root: u16) -> u16 {
        root
    }

    fn take_front(links: &mut [Link], entries: &[Entry<T>], root: u16) -> (u16, Option<u16>) {
        let Link { left, right, .. } = links[root as usize];
        (root, trees::meld(links, entries, left, right))
    }

    ghost lawful = { lawful T.Ordered.le (strict T.Ordered.le T.Ordered.laws) };
}
