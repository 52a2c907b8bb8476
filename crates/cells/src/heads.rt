// What a store of heaps keeps beside its two slices.
ghost use Rattle.std.specs.Prelude.{◌≡◌, ◌+◌, ◌<◌, None, slice_index_or};
ghost use Rattle.cells.specs.Queues.{fresh_heads, kept_queue, no_queue, with_queue};

use stores::Refusal;

#[derive(Clone, Copy, Default, PartialEq, Eq, Debug)]
pub struct Queue {
    // the cell of the heap's root, or none where the queue is empty
    pub root: Option<u16>,
    pub count: u16,
}

#[derive(Drop)]
pub struct Heads {
    pub queues: [Queue; 32],
    // the first idle cell
    pub free: Option<u16>,
    // the next stamp, and how many stamps there are
    pub next: u16,
    pub stamps: u16,
}

impl Heads {
    // 32 empty queues over idle cells of which free is the first.
    pub fn fresh(free: Option<u16>, stamps: u16) -> Heads
        ensures { result ≡ fresh_heads free stamps }
    {
        Heads {
            queues: [Queue::default(); 32],
            free,
            next: 0,
            stamps,
        }
    }

    // The queue's root and count, from what is kept.
    pub fn queue(&self, queue: u8) -> Result<Queue, Refusal>
        ensures { result ≡ kept_queue self.now queue }
    {
        self.queues
            .get(queue as usize)
            .copied()
            .ok_or(Refusal::QueueNumber)
    }

    // The queue gets another root and count.
    pub fn settle(&mut self, queue: u8, root: Option<u16>, count: u16)
        requires { queue < 32 }
        ensures { self.new ≡ with_queue self.old queue root count }
    {
        self.queues[queue as usize] = Queue { root, count };
    }

    // The queue `into` gets the root, and the count of `from` too, which is the answer; the queue `from` is empty.
    pub fn unite(&mut self, into: u8, from: u8, root: Option<u16>) -> u16
        requires into { into < 32 }
        requires from { from < 32 }
        requires fits { (slice_index_or self.old.queues into no_queue).count + (slice_index_or self.old.queues from no_queue).count < 65536 }
        ensures answer { result ≡ (slice_index_or self.old.queues from no_queue).count }
        ensures heads { self.new ≡ with_queue (with_queue self.old into root ((slice_index_or self.old.queues into no_queue).count + (slice_index_or self.old.queues from no_queue).count)) from None 0 }
    {
        let moved = self.queues[from as usize].count;
        let count = self.queues[into as usize].count + moved;
        self.settle(into, root, count);
        self.settle(from, None, 0);
        moved
    }
}
