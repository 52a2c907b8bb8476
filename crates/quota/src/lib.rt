// A limit for each queue, over any agenda. A number is `as usize` at an index: to the proofs that is
// the number itself, where `usize::from` is a call whose answer each proof would have to rewrite.
#![tactic(auto)]

mod limits;

ghost use Rattle.std.specs.Prelude.{◌≡◌};
ghost use Rattle.stores.specs.Meaning.{WellFormed};
ghost use Rattle.stores.specs.Refusals.{Tests};
ghost use Rattle.stores.specs.declared.refusals.Unfit.TheVariants.{OutOfRange};
ghost use Rattle.quota.specs.Limiting.{with_limits, quota_meaning, quota_sound, Fit};
ghost use Rattle.quota.specs.Formed.{formed_with_limits};

use elements::Entry;
pub use limits::Limits;
use stores::{Agenda, Refusal, Sizes, Store, Unfit};

#[derive(Drop)]
pub struct Quota<B> {
    below: B,
    own: Limits,
}

impl<B: Agenda> Quota<B> {
    // Whether the layer can stand over this store.
    pub fn fits(below: &B) -> Result<(), Unfit>
        requires { B.Store.sound below.now }
        ensures { Tests result OutOfRange (Fit (B.Store.meaning below.now)) }
    {
        if below.height() == 255 {
            Err(Unfit::OutOfRange)
        } else {
            Ok(())
        }
    }

    // The layer over this store, with a limit for each queue.
    pub fn make(below: B, limits: [u16; 32]) -> Quota<B>
        requires sound { B.Store.sound below }
        requires fit { Fit (B.Store.meaning below) }
        ensures sound { quota_sound B.Item.Ordered.le B.Store.sound B.Store.meaning result }
        ensures formed { WellFormed B.Item.Ordered.le (quota_meaning B.Store.meaning result) }
        ensures meaning { quota_meaning B.Store.meaning result ≡ with_limits limits (B.Store.meaning below) }
    {
        let own = Limits::over(below.height(), limits);
        Quota { below, own }
    }
}

// The meaning is that of the store below, with one more pair of limit and height on each queue. What a limit does not
// concern is the store's below, call by call: no macro may write these calls, and the trait's calls have no bodies, since a
// store by itself has nothing below to pass on to; one impl for all layers would need a second trait with the same contracts.
impl<B: Agenda> Store for Quota<B> {
    type Item = B::Item;

    ghost meaning = { quota_meaning B.Store.meaning };

    ghost sound = { quota_sound B.Item.Ordered.le B.Store.sound B.Store.meaning };

    ghost formed = { λ s h. formed_with_limits h };

    fn put(&mut self, queue: u8, element: B::Item) -> Result<u16, Refusal> {
        let count = self.below.count(queue)?;
        if self.own.reached(queue, count) {
            return Err(self.own.refusal());
        }
        self.below.put(queue, element)
    }

    fn first(&self, queue: u8) -> Result<Option<Entry<B::Item>>, Refusal> {
        self.below.first(queue)
    }

    fn take(&mut self, queue: u8) -> Result<Option<Entry<B::Item>>, Refusal> {
        self.below.take(queue)
    }

    fn meld(&mut self, into: u8, from: u8) -> Result<u16, Refusal> {
        self.below.meld(into, from)
    }

    fn count(&self, queue: u8) -> Result<u16, Refusal> {
        self.below.count(queue)
    }

    fn issued(&self) -> u16 {
        self.below.issued()
    }

    fn sizes(&self) -> Sizes {
        self.below.sizes()
    }

    fn height(&self) -> u8 {
        self.own.height
    }
}

impl<B: Agenda> Agenda for Quota<B> {
    fn cancel(&mut self, stamp: u16) -> Result<u8, Refusal> {
        self.below.cancel(stamp)
    }
}
