// An agenda in one slice: every question is one pass over the cells. A number is `as usize` where it is a
// length: to the proofs that is the number itself, where `usize::from` is a call whose
// answer each proof would have to rewrite.
#![tactic(auto)]

ghost use Rattle.std.specs.Prelude.{◌≡◌, ◌<◌, ◌≤◌, length, position, slice_set};
ghost use Rattle.stores.specs.Meaning.{WellFormed, fresh_bare};
ghost use Rattle.stores.specs.Refusals.{Tests};
ghost use Rattle.stores.specs.declared.refusals.Unfit.TheVariants.{OutOfRange};
ghost use Rattle.records.specs.Cells.{empty, StampedAt, FrontAt, queued};
ghost use Rattle.table.specs.Tables.{meaning_of, SoundTable, Fit};
ghost use Rattle.records.proofs.Standing.{formed};

use elements::{Entry, Ordered};
use records::{Record, clear, count_in, empty_cell, front_in, move_all, stamped_cell};
use stores::{Agenda, QUEUES, Refusal, Sizes, Store, Unfit};

// The records of all queues, the next stamp, and how many stamps there are.
#[derive(Drop)]
pub struct Table<'a, T> {
    cells: &'a mut [Option<Record<T>>],
    next: u16,
    stamps: u16,
}

// Whether a table of these sizes can be made of the slice.
pub fn fits<T: Copy>(slice: &[Option<Record<T>>], sizes: Sizes) -> Result<(), Unfit>
    ensures { Tests result OutOfRange (Fit (length slice.now) sizes.cells sizes.stamps) }
{
    if !sizes.are_allowed() || slice.len() != sizes.cells as usize {
        return Err(Unfit::OutOfRange);
    }
    Ok(())
}

// A table with no entries, of a slice and sizes that passed `fits`. The clause `lent` says that the table has this slice.
pub fn make<'a, T: Ordered + Copy>(slice: &'a mut [Option<Record<T>>], sizes: Sizes) -> Table<'a, T>
    requires { Fit (length slice.old) sizes.cells sizes.stamps }
    ensures sound { SoundTable result }
    ensures formed { WellFormed T.Ordered.le (meaning_of T.Ordered.le result) }
    ensures meaning { meaning_of T.Ordered.le result ≡ fresh_bare sizes.cells sizes.stamps }
    ensures lent { result.cells.ghost_name ≡ slice.entry.ghost_name }
{
    clear(slice);
    Table {
        cells: slice,
        next: 0,
        stamps: sizes.stamps,
    }
}

// The cell i is written over.
fn write<T: Copy>(cells: &mut [Option<Record<T>>], i: usize, cell: Option<Record<T>>)
    requires { i < length cells.old }
    ensures { cells.new ≡ slice_set cells.old i cell }
{
    cells[i] = cell;
}

// These lend the slice: the checker covers no `&mut self` that lends its field as a `&[..]` itself.
impl<'a, T: Ordered + Copy> Table<'a, T> {
    fn empty(&self) -> Option<usize>
        ensures { result ≡ position empty self.now.cells.now }
    {
        empty_cell(self.cells)
    }

    fn stamped(&self, stamp: u16) -> Option<(usize, Record<T>)>
        ensures { StampedAt stamp self.now.cells.now result }
    {
        stamped_cell(self.cells, stamp)
    }

    fn front(&self, queue: u8) -> Option<(usize, Entry<T>)>
        ensures { FrontAt T.Ordered.le queue self.now.cells.now result }
    {
        front_in(self.cells, queue)
    }

    // How many entries the queue has, which fits a `u16`.
    fn counted(&self, queue: u8) -> u16
        requires { length self.now.cells.now ≤ 4096 }
        ensures { result ≡ queued queue self.now.cells.now }
    {
        count_in(self.cells, queue) as u16
    }
}

// The test of a queue's number stands in each call. Tried as `near(queue)?`: the ways out of put, take and meld by `?` were no
// longer proved by the check alone, and each would need an answer that takes its conversion apart; `ok_or(..)?` likewise. First
// and count keep the test too: a helper for two calls of five would be one form more.
impl<'a, T: Ordered + Copy> Store for Table<'a, T> {
    type Item = T;

    ghost meaning = { λ t. meaning_of T.Ordered.le t };

    ghost sound = { λ t. SoundTable t };

    ghost formed = { λ t h. formed h T.Ordered.le T.Ordered.laws };

    fn put(&mut self, queue: u8, element: T) -> Result<u16, Refusal> {
        if queue >= QUEUES {
            return Err(Refusal::QueueNumber);
        }
        let Some(i) = self.empty() else {
            return Err(Refusal::NoCell);
        };
        if self.next == self.stamps {
            return Err(Refusal::NoStamp);
        }
        let stamp = self.next;
        let entry = Entry { element, stamp };
        write(self.cells, i, Some(Record { queue, entry }));
        self.next = stamp + 1;
        Ok(stamp)
    }

    fn first(&self, queue: u8) -> Result<Option<Entry<T>>, Refusal> {
        if queue >= QUEUES {
            return Err(Refusal::QueueNumber);
        }
        Ok(self.front(queue).map(|(_, entry)| entry))
    }

    fn take(&mut self, queue: u8) -> Result<Option<Entry<T>>, Refusal> {
        if queue >= QUEUES {
            return Err(Refusal::QueueNumber);
        }
        let Some((i, entry)) = self.front(queue) else {
            return Ok(None);
        };
        write(self.cells, i, None);
        Ok(Some(entry))
    }

    fn meld(&mut self, into: u8, from: u8) -> Result<u16, Refusal> {
        if into >= QUEUES || from >= QUEUES {
            return Err(Refusal::QueueNumber);
        }
        if into == from {
            return Err(Refusal::SameQueue);
        }
        let count = self.counted(from);
        move_all(self.cells, into, from);
        Ok(count)
    }

    fn count(&self, queue: u8) -> Result<u16, Refusal> {
        if queue >= QUEUES {
            return Err(Refusal::QueueNumber);
        }
        Ok(self.counted(queue))
    }

    fn issued(&self) -> u16 {
        self.next
    }

    fn sizes(&self) -> Sizes {
        Sizes {
            // at most 4,096, so that it fits: `try_from` would have a failure that cannot come
            cells: self.cells.len() as u16,
            stamps: self.stamps,
        }
    }

    fn height(&self) -> u8 {
        0
    }
}

impl<'a, T: Ordered + Copy> Agenda for Table<'a, T> {
    fn cancel(&mut self, stamp: u16) -> Result<u8, Refusal> {
        // by let-else: at an `ok_or(..)?` the answers would have to take its conversion apart
        let Some((i, record)) = self.stamped(stamp) else {
            return Err(Refusal::NotQueued { height: 0 });
        };
        write(self.cells, i, None);
        Ok(record.queue)
    }
}
