// Elements with the stamps that a store gave them, and the order in which a queue keeps them.
ghost use Rattle.std.specs.Prelude.{◌≡◌, true};
ghost use Rattle.elements.specs.Order.{Reflexive, Strict, precedes_by, stamp_of};

use crate::lines::LineEntry;
use crate::order::Ordered;

// An element and the stamp that it was given when it was put: 0 for the first of a store, 1 for the next, and on.
#[derive(Clone, Copy, Default, PartialEq, Eq, Debug)]
pub struct Entry<T> {
    pub element: T,
    pub stamp: u16,
}

// Whether a comes before b: a's element is earlier, or the elements are tied and a's stamp is smaller.
pub fn precedes<T: Ordered>(a: &Entry<T>, b: &Entry<T>) -> bool
    ensures { result ≡ precedes_by T.Ordered.le a.now b.now }
{
    !b.element.no_later(&a.element) || a.element.no_later(&b.element) && a.stamp < b.stamp
}

// A theorem, with nothing to compute: whatever the elements, each is no later than itself, and entries are strictly
// ordered, so that of two with different stamps exactly one precedes the other.
pub fn entries_are_ordered<T: Ordered>()
    ensures reflexive { Reflexive T.Ordered.le }
    ensures strict { Strict (precedes_by T.Ordered.le) stamp_of }
{}

// The more urgent of two orders goes first, though it was put later and is due later.
pub fn urgency_before_due() -> bool
    ensures { result ≡ true }
{
    let urgent = LineEntry {
        order: 0,
        urgency: 0,
        due: 90,
    };
    let early = LineEntry {
        order: 1,
        urgency: 5,
        due: 40,
    };
    precedes(
        &Entry {
            element: urgent,
            stamp: 1,
        },
        &Entry {
            element: early,
            stamp: 0,
        },
    )
}
