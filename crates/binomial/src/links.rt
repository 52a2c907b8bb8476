// What a cell of the link slice holds.
ghost use Rattle.std.specs.Prelude.{◌≡◌};
ghost use Rattle.binomial.specs.Binomial.{alone, idle_to};

// The first child of a node, its next sibling, and its degree, which is the number of its children. An idle cell names
// the next idle one as its sibling.
#[derive(Clone, Copy)]
pub struct Link {
    pub child: Option<u16>,
    pub next: Option<u16>,
    pub degree: u8,
}

impl Link {
    // A root with no children and no siblings, where no type of entries is named, as `HeapLink::single` asks.
    pub fn single() -> Link
        ensures { result ≡ alone }
    {
        Link {
            child: None,
            next: None,
            degree: 0,
        }
    }

    // An idle cell, where no type of entries is named, as `HeapLink::idle` asks.
    pub fn idle(next: Option<u16>) -> Link
        ensures { result ≡ idle_to next }
    {
        Link {
            child: None,
            next,
            degree: 0,
        }
    }
}
