// The last changes, in places that are used in turn.
ghost use Rattle.std.specs.Prelude.{◌≡◌, ◌+◌, ◌%◌, ◌<◌, ◌≤◌, min, [], ◌∷◌, if◌then◌else◌, nat_lt};
ghost use Rattle.std.specs.List.{slice_get};
ghost use Rattle.journal.specs.Kept.{WellKept, History, Writes, recent};

#[derive(Clone, Copy, PartialEq, Eq, Debug)]
pub enum Change {
    Put { queue: u8, stamp: u16 },
    Take { queue: u8, stamp: u16 },
    Meld { into: u8, from: u8 },
    Cancel { stamp: u16 },
}

// The first `used` places are used in turn: `at` is the next one to write, and `filled` of them hold a change. A ring in an
// array, since the memory of a layer is fixed. What holds of a log is a condition and no ghost field: the checker covers no
// layer with one over a store that holds a `&mut`.
#[derive(Drop)]
pub struct Log {
    places: [Change; 1024],
    used: u16,
    at: u16,
    filled: u16,
    pub(crate) height: u8,
}

impl Log {
    // No change yet, in a layer over a store of the height `below`.
    pub(crate) fn over(below: u8, used: u16) -> Log
        requires low { below < 255 }
        requires some { 1 ≤ used }
        requires most { used ≤ 1024 }
        ensures kept { WellKept result }
        ensures history { History result [] }
        ensures used { result.used ≡ used }
        ensures height { result.height ≡ below + 1 }
    {
        Log {
            places: [Change::Cancel { stamp: 0 }; 1024],
            used,
            at: 0,
            filled: 0,
            height: below + 1,
        }
    }

    // Writes the change; once all places are filled, over the oldest.
    pub(crate) fn note(&mut self, change: Change)
        requires { WellKept self.old }
        ensures kept { WellKept self.new }
        ensures writes { Writes self.old (change ∷ []) self.new }
    {
        self.places[self.at as usize] = change;
        self.at = following(self.at, self.used);
        self.filled = one_more(self.filled, self.used);
    }

    // The i-th oldest of the changes kept, counted from 0.
    pub(crate) fn oldest(&self, i: u16) -> Option<Change>
        requires { WellKept self.now }
        ensures { result ≡ slice_get (recent self.now) i }
    {
        // by `if`: in the closure of a `then` it is not known that i is below `filled` (tried)
        if i < self.filled {
            Some(self.places[self.place(i) as usize])
        } else {
            None
        }
    }

    // Where the i-th oldest is.
    fn place(&self, i: u16) -> u16
        requires kept { WellKept self.now }
        requires found { i < self.now.filled }
        ensures { result ≡ (if nat_lt self.now.filled self.now.used then i else (self.now.at + i) % self.now.used) }
    {
        if self.filled < self.used {
            i
        } else {
            (self.at + i) % self.used
        }
    }
}

// The place after this one, in turn.
fn following(at: u16, used: u16) -> u16
    requires { at < used }
    ensures { result ≡ (at + 1) % used }
{
    (at + 1) % used
}

// How many places are filled after one more change.
fn one_more(filled: u16, used: u16) -> u16
    ensures { result ≡ min (filled + 1) used }
{
    filled.saturating_add(1).min(used)
}
