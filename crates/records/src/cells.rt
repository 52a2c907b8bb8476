// One cell: a record of a queue's number and an entry, or none.
ghost use Rattle.std.specs.Prelude.{◌≡◌};
ghost use Rattle.records.specs.Cells.{entry_in, with_stamp, moved};

use elements::Entry;

#[derive(Clone, Copy, PartialEq, Eq, Debug)]
pub struct Record<T> {
    pub queue: u8,
    pub entry: Entry<T>,
}

// The entry of the cell, where it is in the queue.
pub fn entry_in<T: Copy>(cell: &Option<Record<T>>, queue: u8) -> Option<Entry<T>>
    ensures { result ≡ entry_in queue cell.now }
{
    cell.filter(|record| record.queue == queue)
        .map(|record| record.entry)
}

// The record of the cell, where its entry has the stamp.
pub fn with_stamp<T: Copy>(cell: &Option<Record<T>>, stamp: u16) -> Option<Record<T>>
    ensures { result ≡ with_stamp stamp cell.now }
{
    cell.filter(|record| record.entry.stamp == stamp)
}

// The cell after the records of the queue `from` went into the queue `into`.
pub fn moved<T: Copy>(cell: Option<Record<T>>, into: u8, from: u8) -> Option<Record<T>>
    ensures { result ≡ moved into from cell }
{
    cell.map(|record| Record {
        queue: if record.queue == from {
            into
        } else {
            record.queue
        },
        ..record
    })
}
