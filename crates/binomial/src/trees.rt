// The meld of two heaps, which is the addition of two binary numbers: a heap has a tree of degree k where the number of
// its entries has the digit 2ᵏ.
ghost use Rattle.std.specs.Prelude.{ℕ, Some};
ghost use Rattle.cells.specs.Trees.{Tree};
ghost use Rattle.cells.specs.Forms.{Meldable, Melded};
ghost use Rattle.forests.specs.Parts.{Apart, Added};
ghost use Rattle.binomial.specs.Binomial.{binomial, cells_of, Lone, Rising, DegreesAreLow};

use crate::links::Link;
use elements::{Entry, Ordered};
use forests::{join, set_next};

// The tree at i goes before the trees at rest, which are of no lower degree. Where the first is of the same degree, the
// two become one of the next degree, which is carried on.
fn carry<T: Ordered + Copy>(
    links: &mut [Link],
    entries: &[Entry<T>],
    i: u16,
    rest: Option<u16>,
) -> Option<u16>
    requires { (k : ℕ) × (s : Tree (Entry T)) × (t : Tree (Entry T)) × Apart (cells_of T.Ordered.le) (Lone k) (Rising k) links.old entries.now (Some i) rest s t }
    ensures { (k : ℕ) (s t : Tree (Entry T)) → Apart (cells_of T.Ordered.le) (Lone k) (Rising k) links.old entries.now (Some i) rest s t → Added (cells_of T.Ordered.le) (Rising k) links.old entries.now s t links.new result }
{
    let Some(j) = rest else {
        return Some(i);
    };
    let first = links[j as usize];
    if links[i as usize].degree < first.degree {
        set_next::<Link, T>(links, i, rest);
        Some(i)
    } else {
        let sum = join(links, entries, i, j, None);
        carry(links, entries, sum, first.next)
    }
}

// The trees at a and those at b, each of rising degrees, become one such list.
fn add<T: Ordered + Copy>(
    links: &mut [Link],
    entries: &[Entry<T>],
    a: Option<u16>,
    b: Option<u16>,
) -> Option<u16>
    requires { (k : ℕ) × (s : Tree (Entry T)) × (t : Tree (Entry T)) × Apart (cells_of T.Ordered.le) (Rising k) (Rising k) links.old entries.now a b s t }
    ensures { (k : ℕ) (s t : Tree (Entry T)) → Apart (cells_of T.Ordered.le) (Rising k) (Rising k) links.old entries.now a b s t → Added (cells_of T.Ordered.le) (Rising k) links.old entries.now s t links.new result }
{
    let (Some(i), Some(j)) = (a, b) else {
        return a.or(b);
    };
    let left = links[i as usize];
    let right = links[j as usize];
    if left.degree < right.degree {
        let rest = add(links, entries, left.next, Some(j));
        set_next::<Link, T>(links, i, rest);
        Some(i)
    } else if right.degree < left.degree {
        let rest = add(links, entries, right.next, Some(i));
        set_next::<Link, T>(links, j, rest);
        Some(j)
    } else {
        let sum = join(links, entries, i, j, None);
        let rest = add(links, entries, left.next, right.next);
        carry(links, entries, sum, rest)
    }
}

// The heaps at a and b become one, whose first root is the answer. Only roots are written, of which each heap has at
// most one of a degree.
pub fn meld<T: Ordered + Copy>(
    links: &mut [Link],
    entries: &[Entry<T>],
    a: Option<u16>,
    b: Option<u16>,
) -> Option<u16>
    requires { (s : Tree (Entry T)) × (t : Tree (Entry T)) × Meldable (binomial T.Ordered.le) links.old entries.now a b s t }
    ensures { (s t : Tree (Entry T)) → Meldable (binomial T.Ordered.le) links.old entries.now a b s t → Melded (binomial T.Ordered.le) links.old entries.now s t links.new result }
{
    add(links, entries, a, b)
}

// A theorem, with nothing to compute: a tree of degree k has 2ᵏ nodes, so that no degree is above 12.
pub fn degrees_are_low<T: Ordered>()
    ensures { DegreesAreLow (Entry T) }
{}
