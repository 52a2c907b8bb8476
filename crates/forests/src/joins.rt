// Two trees become one.
ghost use Rattle.std.specs.Prelude.{◌≡◌, ◌<◌, length, Some, slice_index_or, slice_set};
ghost use Rattle.cells.specs.Trees.{Tree};
ghost use Rattle.forests.specs.Parts.{Joinable, Joined, Joins, adopted};

use crate::links::ForestLink;
use elements::{Entry, Ordered, precedes};

// The node at i stands before the siblings at next.
pub fn set_next<L: ForestLink<T>, T: Ordered + Copy>(links: &mut [L], i: u16, next: Option<u16>)
    requires { i < length links.old }
    ensures { links.new ≡ slice_set links.old i ((L.layout T.Ordered.le).with_next (slice_index_or links.old i (L.layout T.Ordered.le).none) next) }
{
    links[i as usize] = links[i as usize].before(next);
}

// The tree at kid becomes the first child of parent, which stands before the siblings at next.
fn adopt<L: ForestLink<T>, T: Ordered + Copy>(
    links: &mut [L],
    parent: u16,
    kid: u16,
    next: Option<u16>,
)
    requires { (parent < length links.old) × (kid < length links.old) × L.has_room (slice_index_or links.old parent (L.layout T.Ordered.le).none) }
    ensures { links.new ≡ adopted (L.layout T.Ordered.le) links.old parent kid next }
{
    let old = links[parent as usize];
    let children = old.child();
    links[kid as usize] = links[kid as usize].before(children);
    links[parent as usize] = old.over(kid).before(next);
}

// The trees at i and j become one, before the siblings at next: the root that is preceded becomes the other's first
// child. Two links are written.
pub fn join<L: ForestLink<T>, T: Ordered + Copy>(
    links: &mut [L],
    entries: &[Entry<T>],
    i: u16,
    j: u16,
    next: Option<u16>,
) -> u16
    requires joinable { (s : Tree (Entry T)) × (t : Tree (Entry T)) × (v : Tree (Entry T)) × Joinable (L.layout T.Ordered.le) links.old entries.now i j next s t v }
    requires room { L.has_room (slice_index_or links.old i (L.layout T.Ordered.le).none) × L.has_room (slice_index_or links.old j (L.layout T.Ordered.le).none) }
    ensures { (s t v : Tree (Entry T)) → Joinable (L.layout T.Ordered.le) links.old entries.now i j next s t v → Joined (L.layout T.Ordered.le) (Joins s t v) links.old entries.now s t v links.new (Some result) }
{
    if precedes(&entries[i as usize], &entries[j as usize]) {
        adopt(links, i, j, next);
        i
    } else {
        adopt(links, j, i, next);
        j
    }
}
