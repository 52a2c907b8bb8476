// A waiting line as text, an order to a line.
#![tactic(auto)]

ghost use Rattle.std.specs.Prelude.{◌≡◌, ℕ, List, Result, MatchResult};
ghost use Rattle.elements.specs.declared.lines.LineEntry.{LineEntry};
ghost use Rattle.scanner.specs.Lines.{lines_of};
ghost use Rattle.waiting_orders.specs.declared.Unreadable.{Unreadable};
ghost use Rattle.waiting_orders.specs.declared.ReadFailure.TheVariants.{NoMemory};
ghost use Rattle.waiting_orders.specs.Forms.{Reads, unreadable_number};
ghost use Rattle.waiting_orders.specs.Lines.{Listed, Unlisted};

use elements::LineEntry;
use scanner::{Lines, scan};
use std::alloc::{AllocFailed, Global};

// Why a line tells no order: it has not the form, or a number in it is out of its range.
#[derive(Clone, Copy, PartialEq, Eq, Debug)]
pub enum Unreadable {
    Malformed = 4,
    OutOfRange = 5,
}

impl Unreadable {
    pub fn number(&self) -> u8
        ensures { result ≡ unreadable_number self.now }
    {
        *self as u8
    }
}

// The ranges of a line of the waiting line's own format, which is not that of scripts, whose ranges the machine has.
const LARGEST_ORDER: u32 = 1023;

const LEAST_URGENT: u32 = 9;

const LATEST_DUE: u32 = 1_000_000_000;

// The order that the line tells: its number, its urgency and its due tick, with one space between them.
pub fn read_order(line: &[u8]) -> Result<LineEntry, Unreadable>
    ensures { Reads line.now result }
{
    let [order, urgency, due] = scan::<3>(line, b"# # #").ok_or(Unreadable::Malformed)?;
    if order > LARGEST_ORDER || urgency > LEAST_URGENT || due > LATEST_DUE {
        return Err(Unreadable::OutOfRange);
    }
    // The test has just shown that they fit: `try_from` would have a failure that cannot come.
    Ok(LineEntry {
        order: order as u16,
        urgency: urgency as u8,
        due,
    })
}

// A theorem, with nothing to compute: every line has one reading, so an order is read exactly where the line is written
// of it with its numbers in range.
pub fn reading_is_unique()
    ensures { (line : List ℕ) (r s : Result LineEntry Unreadable) → Reads line r → Reads line s → r ≡ s }
{}

// Why a text is not read: the line of that number, counted from 1, tells no order, or there is no memory for them.
#[derive(Clone, Copy, PartialEq, Eq, Debug)]
pub enum ReadFailure {
    Line { number: usize, why: Unreadable },
    NoMemory,
}

impl From<AllocFailed<LineEntry>> for ReadFailure {
    ghost from_gives = { λ _ r. r ≡ NoMemory };

    fn from(_refused: AllocFailed<LineEntry>) -> ReadFailure {
        ReadFailure::NoMemory
    }
}

// The orders that the lines of the text tell. Lines end with byte 10; the last may lack it.
pub fn read_orders(text: &[u8], heap: Global) -> Result<Vec<LineEntry>, ReadFailure>
    ensures { MatchResult result (λ v. Listed (lines_of text.now) v.items) (Unlisted (lines_of text.now)) }
{
    let mut orders = Vec::new(heap);
    for line in Lines::of(text) {
        let number = orders.len() + 1;
        let order = read_order(line).map_err(|why| ReadFailure::Line { number, why })?;
        orders.push(order)?;
    }
    Ok(orders)
}
