// How large a store is.
ghost use Rattle.std.specs.Prelude.{MatchBool};
ghost use Rattle.stores.specs.Meaning.{Sizes as Allowed};

// How many cells a store has, and how many stamps it gives out.
#[derive(Clone, Copy, PartialEq, Eq, Debug)]
pub struct Sizes {
    pub cells: u16,
    pub stamps: u16,
}

impl Sizes {
    // The largest store.
    pub const LARGEST: Sizes = Sizes {
        cells: 4096,
        stamps: 32768,
    };

    // Whether a store may have them.
    pub fn are_allowed(&self) -> bool
        ensures { MatchBool result (Allowed self.now.cells self.now.stamps) (Allowed self.now.cells self.now.stamps → ⊥) }
    {
        (1..=Sizes::LARGEST.cells).contains(&self.cells)
            && (1..=Sizes::LARGEST.stamps).contains(&self.stamps)
    }
}
