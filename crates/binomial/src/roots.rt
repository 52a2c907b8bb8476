// The roots of a heap: which one comes first, and what is left without it.
ghost use Rattle.std.specs.Prelude.{ℕ, List, Some};
ghost use Rattle.elements.specs.Order.{precedes_by};
ghost use Rattle.cells.specs.Trees.{Tree, size, uses};
ghost use Rattle.cells.specs.Forms.{Built};
ghost use Rattle.forests.specs.Forests.{Any, listed};
ghost use Rattle.forests.specs.Parts.{ForestAt};
ghost use Rattle.binomial.specs.Binomial.{binomial, cells_of, Children, Least, Rising, TakenOut};

use crate::links::Link;
use elements::{Entry, Ordered, precedes};
use forests::set_next;

// The cell of the root that precedes the others from `at` on.
pub fn least<T: Ordered + Copy>(links: &[Link], entries: &[Entry<T>], at: u16) -> u16
    requires { (t : Tree (Entry T)) × ForestAt (cells_of T.Ordered.le) Any links.now entries.now (Some at) t }
    ensures { (t : Tree (Entry T)) → ForestAt (cells_of T.Ordered.le) Any links.now entries.now (Some at) t → (x : Entry T) × Least (precedes_by T.Ordered.le) result x t }
{
    let Some(next) = links[at as usize].next else {
        return at;
    };
    let other = least(links, entries, next);
    if precedes(&entries[at as usize], &entries[other as usize]) {
        at
    } else {
        other
    }
}

// Takes the tree with the root at i, which precedes the others, out of the trees from `at` on. The answer is the first
// of the others.
pub fn take_out<T: Ordered + Copy>(links: &mut [Link], at: u16, i: u16) -> Option<u16>
    requires { (es : List (Entry T)) × (k : ℕ) × (x : Entry T) × (t : Tree (Entry T)) × ForestAt (cells_of T.Ordered.le) (Rising k) links.old es (Some at) t × Least (precedes_by T.Ordered.le) i x t }
    ensures { (es : List (Entry T)) (k : ℕ) (x : Entry T) (t : Tree (Entry T)) → ForestAt (cells_of T.Ordered.le) (Rising k) links.old es (Some at) t → Least (precedes_by T.Ordered.le) i x t → TakenOut T.Ordered.le links.old es k i x t links.new result }
{
    let next = links[at as usize].next;
    if at == i {
        set_next::<Link, T>(links, i, None);
        return next;
    }
    let Some(j) = next else {
        return Some(at);
    };
    let others = take_out::<T>(links, j, i);
    set_next::<Link, T>(links, at, others);
    Some(at)
}

// The children of a root, from the last on: their degrees rise.
pub fn turn_over<T: Ordered + Copy>(links: &mut [Link], children: Option<u16>) -> Option<u16>
    requires { (es : List (Entry T)) × (k : ℕ) × (t : Tree (Entry T)) × ForestAt (cells_of T.Ordered.le) (Children k) links.old es children t }
    ensures { (es : List (Entry T)) (k : ℕ) (t : Tree (Entry T)) → ForestAt (cells_of T.Ordered.le) (Children k) links.old es children t → Built (binomial T.Ordered.le) links.old es (listed (precedes_by T.Ordered.le) t) (uses t) (size t) links.new result }
{
    let mut rest = children;
    let mut turned = None;
    'children: while let Some(i) = rest {
        rest = links[i as usize].next;
        set_next::<Link, T>(links, i, turned);
        turned = Some(i);
    }
    turned
}
