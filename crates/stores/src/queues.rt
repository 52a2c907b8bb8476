// What every store can do with its 32 queues.
ghost use Rattle.std.specs.Prelude.{◌≡◌};
ghost use Rattle.stores.specs.Meaning.{Meaning, WellFormed};
ghost use Rattle.stores.specs.Calls.{first_answer, count_answer};
ghost use Rattle.stores.specs.Promises.{Puts, Takes, Melds, Unchanged};

use crate::refusals::Refusal;
use crate::sizes::Sizes;
use elements::{Entry, Ordered};

// `meaning` is what the store stands for. `sound` is a condition of the implementation's own on what it holds, which
// making gives and every call needs and keeps. A refused call leaves the whole value as it was.
// It is no ghost field of each store: a struct with one that stands beside a lent `&mut` in one type argument is not covered,
// so no layer over a store in lent memory could be written.
pub trait Store {
    type Item: Ordered + Copy;

    ghost meaning: { Self → Meaning Self.Item };

    ghost sound: { Self → Type 0 };

    // The element enters the queue in its place; the answer is its stamp.
    fn put(&mut self, queue: u8, element: Self::Item) -> Result<u16, Refusal>
        requires { sound self.old }
        ensures sound { sound self.new }
        ensures effect { Puts Self.Item.Ordered.le (meaning self.old) queue element result (meaning self.new) }
        ensures refused { Unchanged result self.old self.new };

    // The front entry, or none where the queue is empty.
    fn first(&self, queue: u8) -> Result<Option<Entry<Self::Item>>, Refusal>
        requires { sound self.now }
        ensures answer { result ≡ first_answer (meaning self.now).state queue };

    // The same answer, and the front entry leaves its queue.
    fn take(&mut self, queue: u8) -> Result<Option<Entry<Self::Item>>, Refusal>
        requires { sound self.old }
        ensures sound { sound self.new }
        ensures effect { Takes Self.Item.Ordered.le (meaning self.old) queue result (meaning self.new) }
        ensures refused { Unchanged result self.old self.new };

    // The entries of the queue `from` go into the queue `into`; the answer is how many.
    fn meld(&mut self, into: u8, from: u8) -> Result<u16, Refusal>
        requires { sound self.old }
        ensures sound { sound self.new }
        ensures effect { Melds Self.Item.Ordered.le (meaning self.old) into from result (meaning self.new) }
        ensures refused { Unchanged result self.old self.new };

    // How many entries the queue has.
    fn count(&self, queue: u8) -> Result<u16, Refusal>
        requires { sound self.now }
        ensures answer { result ≡ count_answer (meaning self.now).state queue };

    // How many stamps were given out, which is the next stamp.
    fn issued(&self) -> u16
        requires { sound self.now }
        ensures answer { result ≡ (meaning self.now).state.next };

    // The number of cells and the number of stamps.
    fn sizes(&self) -> Sizes
        requires { sound self.now }
        ensures cells { result.cells ≡ (meaning self.now).fixed.cells }
        ensures stamps { result.stamps ≡ (meaning self.now).fixed.stamps };

    // 0 for a store by itself; a layer has one more than the store below it.
    fn height(&self) -> u8
        requires { sound self.now }
        ensures answer { result ≡ (meaning self.now).fixed.height };

    // Every sound store is well formed: its queues are sorted, its stamps told apart, its cells enough.
    ghost formed: { (s : Self) → sound s → WellFormed Self.Item.Ordered.le (meaning s) };
}
