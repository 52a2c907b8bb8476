// The heaps of a store: the front entry is at the least root, and the children of a root that leaves are melded with the
// other trees.
ghost use Rattle.elements.proofs.Strictness.{strict};
ghost use Rattle.binomial.specs.Binomial.{HasRoom, binomial, cells_of};
ghost use Rattle.binomial.specs.Lawful.{laid, lawful};

use crate::links::Link;
use crate::roots::{least, take_out, turn_over};
use crate::trees;
use cells::HeapLink;
use elements::{Entry, Ordered};
use forests::ForestLink;
use heap_store::HeapStore;

// A store of 32 queues, each a binomial heap.
pub type Binomial<'a, T> = HeapStore<'a, Link, T>;

impl<T: Ordered + Copy> ForestLink<T> for Link {
    ghost layout = { cells_of };

    ghost has_room = { HasRoom };

    fn child(&self) -> Option<u16> {
        self.child
    }

    fn before(self, next: Option<u16>) -> Link {
        Link { next, ..self }
    }

    fn over(self, kid: u16) -> Link {
        Link {
            child: Some(kid),
            degree: self.degree + 1,
            ..self
        }
    }

    ghost consistent = { laid T.Ordered.le };
}

impl<T: Ordered + Copy> HeapLink<T> for Link {
    ghost form = { binomial };

    fn single() -> Link {
        Link::single()
    }

    fn idle(next: Option<u16>) -> Link {
        Link::idle(next)
    }

    fn next_idle(&self) -> Option<u16> {
        self.next
    }

    fn meld(
        links: &mut [Link],
        entries: &[Entry<T>],
        a: Option<u16>,
        b: Option<u16>,
    ) -> Option<u16> {
        trees::meld(links, entries, a, b)
    }

    fn front(links: &[Link], entries: &[Entry<T>], root: u16) -> u16 {
        least(links, entries, root)
    }

    // As many cells are looked at as there are trees and children, of each at most one of a degree.
    fn take_front(links: &mut [Link], entries: &[Entry<T>], root: u16) -> (u16, Option<u16>) {
        let front = least(links, entries, root);
        let others = take_out::<T>(links, root, front);
        let children = links[front as usize].child;
        let turned = turn_over::<T>(links, children);
        (front, trees::meld(links, entries, others, turned))
    }

    ghost lawful = { lawful T.Ordered.le (strict T.Ordered.le T.Ordered.laws) };
}
