// The meld of two heaps, on which all else rests.
ghost use Rattle.std.specs.Prelude.{◌≡◌, ◌+◌, ◌<◌, length, IfSome, slice_index_or, slice_set};
ghost use Rattle.cells.specs.Trees.{Tree};
ghost use Rattle.cells.specs.Forms.{Meldable, Melded};
ghost use Rattle.leftist.specs.Leftist.{leftist, rank_at, no_link, joined, RanksAreLow};

use crate::links::Link;
use elements::{Entry, Ordered, precedes};

fn rank_of(links: &[Link], at: Option<u16>) -> u16
    requires { IfSome at (λ i. i < length links.now) }
    ensures { result ≡ rank_at links.now at }
{
    at.map_or(0, |i| links[i as usize].rank)
}

// Makes the left subtree of i and the tree at rest the subtrees of i.
fn join(links: &mut [Link], i: u16, rest: Option<u16>)
    requires at { i < length links.old }
    requires left { IfSome (slice_index_or links.old i no_link).left (λ k. k < length links.old) }
    requires rest { IfSome rest (λ k. k < length links.old) }
    requires fits { rank_at links.old (slice_index_or links.old i no_link).left + rank_at links.old rest < 65535 }
    ensures { links.new ≡ slice_set links.old i (joined links.old (slice_index_or links.old i no_link).left rest) }
{
    let left = links[i as usize].left;
    let kept = rank_of(links, left);
    let new = rank_of(links, rest);
    if new <= kept {
        links[i as usize] = Link {
            left,
            right: rest,
            rank: new + 1,
        };
    } else {
        links[i as usize] = Link {
            left: rest,
            right: left,
            rank: kept + 1,
        };
    }
}

// The heaps at a and b become one, whose root is the answer. Only their own cells are written, and of these only those
// on the ways from the two roots to the right, which are as long as the roots' ranks.
pub fn meld<T: Ordered + Copy>(
    links: &mut [Link],
    entries: &[Entry<T>],
    a: Option<u16>,
    b: Option<u16>,
) -> Option<u16>
    requires { (s : Tree (Entry T)) × (t : Tree (Entry T)) × Meldable (leftist T.Ordered.le) links.old entries.now a b s t }
    ensures { (s t : Tree (Entry T)) → Meldable (leftist T.Ordered.le) links.old entries.now a b s t → Melded (leftist T.Ordered.le) links.old entries.now s t links.new result }
{
    let (Some(i), Some(j)) = (a, b) else {
        return a.or(b);
    };
    if precedes(&entries[i as usize], &entries[j as usize]) {
        let right = links[i as usize].right;
        let rest = meld(links, entries, right, Some(j));
        join(links, i, rest);
        Some(i)
    } else {
        let right = links[j as usize].right;
        let rest = meld(links, entries, right, Some(i));
        join(links, j, rest);
        Some(j)
    }
}

// A theorem, with nothing to compute: a heap of rank n has at least 2ⁿ − 1 nodes. So the two ways that a meld goes down,
// which are as long as the ranks of its roots, have at most 12 nodes each where there are 4,096 cells.
pub fn ranks_are_low<T>()
    ensures { RanksAreLow (Entry T) }
{}
