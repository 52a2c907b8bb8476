// What a cell of the link slice holds.
ghost use Rattle.std.specs.Prelude.{◌≡◌};
ghost use Rattle.leftist.specs.Leftist.{alone, idle_to};

// The subtrees of a node and its rank: 0 stands for nothing, a node has one more than its right subtree, and its left
// subtree's rank is at least its right one's. An idle cell names the next idle one on the right.
#[derive(Clone, Copy)]
pub struct Link {
    pub left: Option<u16>,
    pub right: Option<u16>,
    pub rank: u16,
}

impl Link {
    // A node with no subtrees, where no type of entries is named, as `HeapLink::single` asks.
    pub fn single() -> Link
        ensures { result ≡ alone }
    {
        Link {
            left: None,
            right: None,
            rank: 1,
        }
    }

    // An idle cell, where no type of entries is named, as `HeapLink::idle` asks.
    pub fn idle(next: Option<u16>) -> Link
        ensures { result ≡ idle_to next }
    {
        Link {
            left: None,
            right: next,
            rank: 0,
        }
    }
}
