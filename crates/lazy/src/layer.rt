// The layer.
ghost use Rattle.std.specs.Prelude.{◌≡◌, ◌<◌};
ghost use Rattle.stores.specs.Meaning.{WellFormed, list_of};
ghost use Rattle.cancelled.specs.Cancelled.{front_cancelled, fresh_lazily, Fit, Tested, Purges};
ghost use Rattle.lazy.specs.Lazily.{lazy_meaning, lazy_sound};
ghost use Rattle.elements.proofs.Strictness.{strict};
ghost use Rattle.cancelled.proofs.Layer.{formed_lazily};

use crate::marking::Marks;
use elements::Entry;
use stores::{Agenda, BareHeap, Refusal, Sizes, Store, Unfit};

#[derive(Drop)]
pub struct Lazy<B> {
    below: B,
    own: Marks,
}

impl<B: BareHeap> Lazy<B> {
    // Whether the layer can stand over this heap. No heap is 255 high, by the law `bare`: that test stays, since how high the
    // store below may be is the layer's own rule, whatever the law.
    pub fn fits(below: &B) -> Result<(), Unfit>
        requires { B.Store.sound below.now }
        ensures { Tested result (B.Store.meaning below.now) }
    {
        if below.height() == 255 {
            return Err(Unfit::OutOfRange);
        }
        if below.issued() == 0 {
            Ok(())
        } else {
            Err(Unfit::NotFresh)
        }
    }

    // The layer over this heap, with no entry.
    pub fn make(below: B) -> Lazy<B>
        requires sound { B.Store.sound below }
        requires fit { Fit (B.Store.meaning below) }
        ensures sound { lazy_sound B.Item.Ordered.le B.Store.sound B.Store.meaning result }
        ensures formed { WellFormed B.Item.Ordered.le (lazy_meaning B.Store.meaning result) }
        ensures meaning { lazy_meaning B.Store.meaning result ≡ fresh_lazily (B.Store.meaning below).fixed }
    {
        let own = Marks::over(below.height());
        Lazy { below, own }
    }

    // Is there a front entry, and is it cancelled?
    fn front_cancelled(&self, queue: u8) -> bool
        requires sound { B.Store.sound self.now.below }
        requires near { queue < 32 }
        ensures { result ≡ front_cancelled self.now.own.queue_of (list_of (B.Store.meaning self.now.below).state queue) }
    {
        let front = self.below.first(queue).ok().flatten();
        front.is_some_and(|entry| self.own.queue(entry.stamp).is_none())
    }

    // The cancelled entries at the front of the queue leave the heap.
    fn purge(&mut self, queue: u8)
        requires sound { B.Store.sound self.old.below }
        requires near { queue < 32 }
        ensures sound { B.Store.sound self.new.below }
        ensures effect { Purges B.Item.Ordered.le self.old.own.queue_of (B.Store.meaning self.old.below) queue (B.Store.meaning self.new.below) }
        ensures own { self.new.own ≡ self.old.own }
    {
        'purge: while self.front_cancelled(queue) {
            let _ = self.below.take(queue);
        }
    }
}

// The meaning is that of the heap below without its cancelled entries, which are held. What needs no mark is the heap's
// call: no macro may write it, and the trait's calls have no bodies, since a store by itself has nothing below to pass on to.
impl<B: BareHeap> Store for Lazy<B> {
    type Item = B::Item;

    ghost meaning = { lazy_meaning B.Store.meaning };

    ghost sound = { lazy_sound B.Item.Ordered.le B.Store.sound B.Store.meaning };

    ghost formed = { λ s h. formed_lazily _ _ _ _ h (strict _ B.Item.Ordered.laws) };

    fn put(&mut self, queue: u8, element: B::Item) -> Result<u16, Refusal> {
        let stamp = self.below.put(queue, element)?;
        self.own.enter(stamp, queue);
        Ok(stamp)
    }

    fn first(&self, queue: u8) -> Result<Option<Entry<B::Item>>, Refusal> {
        self.below.first(queue)
    }

    fn take(&mut self, queue: u8) -> Result<Option<Entry<B::Item>>, Refusal> {
        let Some(entry) = self.below.take(queue)? else {
            return Ok(None);
        };
        self.own.leave(entry.stamp, queue);
        self.purge(queue);
        Ok(Some(entry))
    }

    fn meld(&mut self, into: u8, from: u8) -> Result<u16, Refusal> {
        self.below.meld(into, from)?;
        Ok(self.own.join(into, from))
    }

    fn count(&self, queue: u8) -> Result<u16, Refusal> {
        let count = self.own.counts.get(queue as usize);
        count.copied().ok_or(Refusal::QueueNumber)
    }

    fn issued(&self) -> u16 {
        self.below.issued()
    }

    fn sizes(&self) -> Sizes {
        self.below.sizes()
    }

    fn height(&self) -> u8 {
        self.own.height
    }
}

impl<B: BareHeap> Agenda for Lazy<B> {
    fn cancel(&mut self, stamp: u16) -> Result<u8, Refusal> {
        // by let-else: at an `ok_or(..)?` the answers would have to take its conversion apart (tried)
        let Some(queue) = self.own.queue(stamp) else {
            return Err(self.own.refusal());
        };
        self.own.leave(stamp, queue);
        self.purge(queue);
        Ok(queue)
    }
}
