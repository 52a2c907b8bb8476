// The two passes over the children of a root that leaves.
ghost use Rattle.cells.specs.Trees.{Tree, size, uses};
ghost use Rattle.cells.specs.Forms.{Built};
ghost use Rattle.forests.specs.Forests.{Any, listed, shaped};
ghost use Rattle.forests.specs.Parts.{ForestAt};
ghost use Rattle.elements.specs.Order.{precedes_by};
ghost use Rattle.pairing.specs.Pairing.{pairing, cells_of};

use crate::links::Link;
use elements::{Entry, Ordered};
use forests::{join, set_next};

// Joins the siblings from `at` on in pairs, from the first on. The answer is the last pair's tree, before the one
// before it, and so on back to the first.
pub fn pair_up<T: Ordered + Copy>(
    links: &mut [Link],
    entries: &[Entry<T>],
    at: Option<u16>,
) -> Option<u16>
    requires { (t : Tree (Entry T)) × ForestAt (cells_of T.Ordered.le) Any links.old entries.now at t }
    ensures { (t : Tree (Entry T)) → ForestAt (cells_of T.Ordered.le) Any links.old entries.now at t → Built (shaped (cells_of T.Ordered.le) Any) links.old entries.now (listed (precedes_by T.Ordered.le) t) (uses t) (size t) links.new result }
{
    let mut rest = at;
    let mut paired = None;
    'pairs: while let Some(i) = rest {
        let second = links[i as usize].next;
        match second {
            None => {
                set_next::<Link, T>(links, i, paired);
                paired = Some(i);
                rest = None;
            }
            Some(j) => {
                rest = links[j as usize].next;
                let root = join(links, entries, i, j, paired);
                paired = Some(root);
            }
        }
    }
    paired
}

// Joins the trees from `at` on into one, whose root is the answer: the first two, then the result with the next.
pub fn gather<T: Ordered + Copy>(
    links: &mut [Link],
    entries: &[Entry<T>],
    at: Option<u16>,
) -> Option<u16>
    requires { (t : Tree (Entry T)) × ForestAt (cells_of T.Ordered.le) Any links.old entries.now at t }
    ensures { (t : Tree (Entry T)) → ForestAt (cells_of T.Ordered.le) Any links.old entries.now at t → Built (pairing T.Ordered.le) links.old entries.now (listed (precedes_by T.Ordered.le) t) (uses t) (size t) links.new result }
{
    let mut rest = at;
    let mut whole = None;
    'trees: while let Some(i) = rest {
        rest = links[i as usize].next;
        match whole {
            None => {
                set_next::<Link, T>(links, i, None);
                whole = Some(i);
            }
            Some(j) => {
                let root = join(links, entries, j, i, None);
                whole = Some(root);
            }
        }
    }
    whole
}
