// The layer: the meaning of the store below, one higher, and a log of the last changes.
ghost use Rattle.std.specs.Prelude.{◌≡◌, []};
ghost use Rattle.std.specs.List.{slice_get};
ghost use Rattle.stores.specs.Meaning.{WellFormed};
ghost use Rattle.stores.specs.Promises.{Puts, Takes, Melds, Cancels, Unchanged};
ghost use Rattle.stores.specs.Refusals.{Tests};
ghost use Rattle.stores.specs.declared.refusals.Unfit.TheVariants.{OutOfRange};
ghost use Rattle.journal.specs.Kept.{History, Writes, recent};
ghost use Rattle.journal.specs.Raised.{raised, journal_meaning, journal_sound, Fit, put_change, take_change, meld_change, cancel_change};
ghost use Rattle.journal.specs.Formed.{formed_raised};

use crate::logs::{Change, Log};
use elements::Entry;
use stores::{Agenda, Refusal, Sizes, Store, Unfit};

#[derive(Drop)]
pub struct Journal<B> {
    below: B,
    own: Log,
}

impl<B: Agenda> Journal<B> {
    // Whether the layer can stand over this store with so many places.
    pub fn fits(below: &B, used: u16) -> Result<(), Unfit>
        requires { B.Store.sound below.now }
        ensures { Tests result OutOfRange (Fit (B.Store.meaning below.now) used) }
    {
        if below.height() < 255 && (1..=1024).contains(&used) {
            Ok(())
        } else {
            Err(Unfit::OutOfRange)
        }
    }

    // The layer over this store, with so many places and no change in them.
    pub fn make(below: B, used: u16) -> Journal<B>
        requires sound { B.Store.sound below }
        requires fit { Fit (B.Store.meaning below) used }
        ensures sound { journal_sound B.Item.Ordered.le B.Store.sound B.Store.meaning result }
        ensures formed { WellFormed B.Item.Ordered.le (journal_meaning B.Store.meaning result) }
        ensures meaning { journal_meaning B.Store.meaning result ≡ raised (B.Store.meaning below) }
        ensures used { result.own.used ≡ used }
        ensures history { History result.own [] }
    {
        let own = Log::over(below.height(), used);
        Journal { below, own }
    }

    // The i-th oldest of the changes kept, counted from 0, or none.
    pub fn oldest(&self, i: u16) -> Option<Change>
        requires { journal_sound B.Item.Ordered.le B.Store.sound B.Store.meaning self.now }
        ensures { result ≡ slice_get (recent self.now.own) i }
    {
        self.own.oldest(i)
    }
}

// Beside what every store promises, each call that may change it says what it writes. The clauses of an impl stand in the
// place of the trait's, so those are said again. The other calls are the store's below: no macro may write them, and the
// trait's calls have no bodies, since a store by itself has nothing below to pass on to.
impl<B: Agenda> Store for Journal<B> {
    type Item = B::Item;

    ghost meaning = { journal_meaning B.Store.meaning };

    ghost sound = { journal_sound B.Item.Ordered.le B.Store.sound B.Store.meaning };

    ghost formed = { λ s h. formed_raised h };

    fn put(&mut self, queue: u8, element: B::Item) -> Result<u16, Refusal>
        requires { journal_sound B.Item.Ordered.le B.Store.sound B.Store.meaning self.old }
        ensures sound { journal_sound B.Item.Ordered.le B.Store.sound B.Store.meaning self.new }
        ensures effect { Puts B.Item.Ordered.le (journal_meaning B.Store.meaning self.old) queue element result (journal_meaning B.Store.meaning self.new) }
        ensures refused { Unchanged result self.old self.new }
        ensures writes { Writes self.old.own (put_change queue result) self.new.own }
    {
        let stamp = self.below.put(queue, element)?;
        self.own.note(Change::Put { queue, stamp });
        Ok(stamp)
    }

    fn first(&self, queue: u8) -> Result<Option<Entry<B::Item>>, Refusal> {
        self.below.first(queue)
    }

    fn take(&mut self, queue: u8) -> Result<Option<Entry<B::Item>>, Refusal>
        requires { journal_sound B.Item.Ordered.le B.Store.sound B.Store.meaning self.old }
        ensures sound { journal_sound B.Item.Ordered.le B.Store.sound B.Store.meaning self.new }
        ensures effect { Takes B.Item.Ordered.le (journal_meaning B.Store.meaning self.old) queue result (journal_meaning B.Store.meaning self.new) }
        ensures refused { Unchanged result self.old self.new }
        ensures writes { Writes self.old.own (take_change queue result) self.new.own }
    {
        let Some(entry) = self.below.take(queue)? else {
            return Ok(None);
        };
        let stamp = entry.stamp;
        self.own.note(Change::Take { queue, stamp });
        Ok(Some(entry))
    }

    fn meld(&mut self, into: u8, from: u8) -> Result<u16, Refusal>
        requires { journal_sound B.Item.Ordered.le B.Store.sound B.Store.meaning self.old }
        ensures sound { journal_sound B.Item.Ordered.le B.Store.sound B.Store.meaning self.new }
        ensures effect { Melds B.Item.Ordered.le (journal_meaning B.Store.meaning self.old) into from result (journal_meaning B.Store.meaning self.new) }
        ensures refused { Unchanged result self.old self.new }
        ensures writes { Writes self.old.own (meld_change into from result) self.new.own }
    {
        let moved = self.below.meld(into, from)?;
        self.own.note(Change::Meld { into, from });
        Ok(moved)
    }

    fn count(&self, queue: u8) -> Result<u16, Refusal> {
        self.below.count(queue)
    }

    fn issued(&self) -> u16 {
        self.below.issued()
    }

    fn sizes(&self) -> Sizes {
        self.below.sizes()
    }

    fn height(&self) -> u8 {
        self.own.height
    }
}

impl<B: Agenda> Agenda for Journal<B> {
    fn cancel(&mut self, stamp: u16) -> Result<u8, Refusal>
        requires { journal_sound B.Item.Ordered.le B.Store.sound B.Store.meaning self.old }
        ensures sound { journal_sound B.Item.Ordered.le B.Store.sound B.Store.meaning self.new }
        ensures effect { Cancels B.Item.Ordered.le (journal_meaning B.Store.meaning self.old) stamp result (journal_meaning B.Store.meaning self.new) }
        ensures refused { Unchanged result self.old self.new }
        ensures writes { Writes self.old.own (cancel_change stamp result) self.new.own }
    {
        let queue = self.below.cancel(stamp)?;
        self.own.note(Change::Cancel { stamp });
        Ok(queue)
    }
}
