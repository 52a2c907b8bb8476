// What a cell of the link slice holds.
ghost use Rattle.std.specs.Prelude.{◌≡◌};
ghost use Rattle.pairing.specs.Pairing.{alone, idle_to};

// The first child of a node and its next sibling. An idle cell names the next idle one as its sibling.
#[derive(Clone, Copy)]
pub struct Link {
    pub child: Option<u16>,
    pub next: Option<u16>,
}

impl Link {
    // A root with no children and no siblings, where no type of entries is named, as `HeapLink::single` asks.
    pub fn single() -> Link
        ensures { result ≡ alone }
    {
        Link {
            child: None,
            next: None,
        }
    }

    // An idle cell, where no type of entries is named, as `HeapLink::idle` asks.
    pub fn idle(next: Option<u16>) -> Link
        ensures { result ≡ idle_to next }
    {
        Link { child: None, next }
    }
}
