// The heaps of a store: the front entry is at the root, and the children of a root that leaves become one tree.
ghost use Rattle.elements.proofs.Strictness.{strict};
ghost use Rattle.pairing.specs.Pairing.{cells_of, pairing};
ghost use Rattle.pairing.specs.Lawful.{laid, lawful};

use crate::links::Link;
use crate::passes::{gather, pair_up};
use cells::HeapLink;
use elements::{Entry, Ordered};
use forests::{ForestLink, join};
use heap_store::HeapStore;

// A store of 32 queues, each a pairing heap.
pub type Pairing<'a, T> = HeapStore<'a, Link, T>;

impl<T: Ordered + Copy> ForestLink<T> for Link {
    ghost layout = { cells_of };

    ghost has_room = { λ k. Unit {0} };

    fn child(&self) -> Option<u16> {
        self.child
    }

    fn before(self, next: Option<u16>) -> Link {
        Link { next, ..self }
    }

    fn over(self, kid: u16) -> Link {
        Link {
            child: Some(kid),
            ..self
        }
    }

    ghost consistent = { laid T.Ordered.le };
}

impl<T: Ordered + Copy> HeapLink<T> for Link {
    ghost form = { pairing };

    fn single() -> Link {
        Link::single()
    }

    fn idle(next: Option<u16>) -> Link {
        Link::idle(next)
    }

    fn next_idle(&self) -> Option<u16> {
        self.next
    }

    // At most two links are written.
    fn meld(
        links: &mut [Link],
        entries: &[Entry<T>],
        a: Option<u16>,
        b: Option<u16>,
    ) -> Option<u16> {
        let (Some(i), Some(j)) = (a, b) else {
            return a.or(b);
        };
        Some(join(links, entries, i, j, None))
    }

    fn front(_links: &[Link], _entries: &[Entry<T>], root: u16) -> u16 {
        root
    }

    // The children are joined in pairs from the first, then the results from the last back. Each pass comes to each of
    // them once.
    fn take_front(links: &mut [Link], entries: &[Entry<T>], root: u16) -> (u16, Option<u16>) {
        let children = links[root as usize].child;
        let paired = pair_up(links, entries, children);
        (root, gather(links, entries, paired))
    }

    ghost lawful = { lawful T.Ordered.le (strict T.Ordered.le T.Ordered.laws) };
}
