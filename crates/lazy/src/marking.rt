// Which queue has each stamp, and how many entries of each queue count.
ghost use Rattle.std.specs.Prelude.{◌≡◌, ◌+◌, ◌-◌, ◌<◌, ◌≤◌, length, set, replicate, SomeIff, slice_index, slice_index_or, slice_set};
ghost use Rattle.stores.specs.declared.refusals.Refusal.TheVariants.{NotQueued};
ghost use Rattle.cancelled.specs.Cancelled.{renamed};

use stores::Refusal;

// `queue_of` has each stamp's queue plus 1, or 0 when it is in none: a byte for each stamp, which is all the memory that a
// layer may have. The lengths are no ghost fields: the checker covers no layer with one over a heap that holds a `&mut`.
#[derive(Drop)]
pub struct Marks {
    pub(crate) queue_of: [u8; 32768],
    pub(crate) counts: [u16; 32],
    pub(crate) height: u8,
}

impl Marks {
    // No stamp in any queue, in a layer over a store of the height `below`.
    pub(crate) fn over(below: u8) -> Marks
        requires { below < 255 }
        ensures marks { result.queue_of ≡ replicate 32768 0 }
        ensures counts { result.counts ≡ replicate 32 0 }
        ensures height { result.height ≡ below + 1 }
    {
        Marks {
            queue_of: [0; 32768],
            counts: [0; 32],
            height: below + 1,
        }
    }

    // The queue that has the stamp, or none.
    pub(crate) fn queue(&self, stamp: u16) -> Option<u8>
        ensures { SomeIff result (1 ≤ slice_index_or self.now.queue_of stamp 0) (slice_index_or self.now.queue_of stamp 0 - 1) }
    {
        self.queue_of.get(stamp as usize)?.checked_sub(1)
    }

    // Why a stamp with no mark cannot be cancelled.
    pub(crate) fn refusal(&self) -> Refusal
        ensures { result ≡ NotQueued self.now.height }
    {
        Refusal::NotQueued {
            height: self.height,
        }
    }

    pub(crate) fn enter(&mut self, stamp: u16, queue: u8)
        requires fits { stamp < length self.old.queue_of }
        requires near { queue < 32 }
        requires long { length self.old.counts ≡ 32 }
        requires room { slice_index self.old.counts queue < 65535 }
        ensures marks { self.new.queue_of ≡ set self.old.queue_of stamp (queue + 1) }
        ensures counts { self.new.counts ≡ slice_set self.old.counts queue (slice_index self.old.counts queue + 1) }
        ensures height { self.new.height ≡ self.old.height }
    {
        self.queue_of[stamp as usize] = queue + 1;
        self.counts[queue as usize] += 1;
    }

    pub(crate) fn leave(&mut self, stamp: u16, queue: u8)
        requires fits { stamp < length self.old.queue_of }
        requires near { queue < length self.old.counts }
        requires some { 1 ≤ slice_index self.old.counts queue }
        ensures marks { self.new.queue_of ≡ set self.old.queue_of stamp 0 }
        ensures counts { self.new.counts ≡ slice_set self.old.counts queue (slice_index self.old.counts queue - 1) }
        ensures height { self.new.height ≡ self.old.height }
    {
        self.queue_of[stamp as usize] = 0;
        self.counts[queue as usize] -= 1;
    }

    // The entries of the queue `from` go into the queue `into`; the answer is how many count.
    pub(crate) fn join(&mut self, into: u8, from: u8) -> u16
        requires near { (into < 32) × (from < 32) }
        requires long { length self.old.counts ≡ 32 }
        requires room { slice_index self.old.counts into + slice_index self.old.counts from ≤ 65535 }
        ensures moved { result ≡ slice_index self.old.counts from }
        ensures marks { self.new.queue_of ≡ renamed (from + 1) (into + 1) self.old.queue_of }
        ensures counts { self.new.counts ≡ slice_set (slice_set self.old.counts into (slice_index self.old.counts into + slice_index self.old.counts from)) from 0 }
        ensures height { self.new.height ≡ self.old.height }
    {
        rename(&mut self.queue_of, from + 1, into + 1);
        let moved = self.counts[from as usize];
        self.counts[into as usize] += moved;
        self.counts[from as usize] = 0;
        moved
    }
}

fn rename(marks: &mut [u8], old: u8, new: u8)
    ensures { marks.new ≡ renamed old new marks.old }
{
    for mark in marks.iter_mut() {
        if *mark == old {
            *mark = new;
        }
    }
}
