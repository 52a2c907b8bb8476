// Dispatching: orders enter a waiting line, and a bench serves them in the order of the line.
#![tactic(auto)]

ghost use Rattle.std.specs.Prelude.{◌≡◌, Bool, List, length, Ok, count_by, MatchResult};
ghost use Rattle.elements.specs.Elements.{line_le};
ghost use Rattle.elements.specs.Order.{precedes_by};
ghost use Rattle.elements.specs.declared.entries.Entry.{Entry};
ghost use Rattle.stores.specs.Meaning.{count_of};
ghost use Rattle.stores.specs.Promises.{Takes};
ghost use Rattle.dispatch.specs.declared.Failure.TheVariants.{Refused, NoMemory};
ghost use Rattle.dispatch.specs.Dispatching.{Admits, Served, Dispatched, Failed, Unused, Enough, Hindered};
ghost use Rattle.dispatch.specs.Service.{numbered, Ranked, elements_of, service, service_order};

use elements::{Entry, LineEntry, Ordered};
use std::alloc::{AllocError, Global};
use stores::{Agenda, Refusal, Store};

// The place of the first order that found no room, counted from 0, and why.
#[derive(Clone, Copy, PartialEq, Eq, Debug)]
pub struct Rejected {
    pub index: usize,
    pub refusal: Refusal,
}

// Why no order of service is told: an order was rejected, or there is no memory for the answer.
#[derive(Clone, Copy, PartialEq, Eq, Debug)]
pub enum Failure {
    Refused(Rejected),
    NoMemory,
}

impl From<Rejected> for Failure {
    ghost from_gives = { λ r f. f ≡ Refused r };

    fn from(rejected: Rejected) -> Failure {
        Failure::Refused(rejected)
    }
}

impl From<AllocError> for Failure {
    ghost from_gives = { λ e f. f ≡ NoMemory };

    fn from(_: AllocError) -> Failure {
        Failure::NoMemory
    }
}

// Puts each order into queue 0, up to the first that is refused.
pub fn admit<A: Agenda<Item = LineEntry>>(
    line: &mut A,
    orders: &[LineEntry],
) -> Result<(), Rejected>
    requires { A.Store.sound line.old }
    ensures sound { A.Store.sound line.new }
    ensures effect { Admits line_le (A.Store.meaning line.old) orders.now result (A.Store.meaning line.new) }
{
    for (index, order) in orders.iter().enumerate() {
        // by `if let`: at a `map_err(..)?` the answers would have to take the closure apart (tried)
        if let Err(refusal) = line.put(0, *order) {
            return Err(Rejected { index, refusal });
        }
    }
    Ok(())
}

// How many orders wait in queue 0.
fn waiting<A: Agenda<Item = LineEntry>>(line: &A) -> u16
    requires { A.Store.sound line.now }
    ensures { result ≡ count_of (A.Store.meaning line.now).state 0 }
{
    line.count(0).unwrap()
}

// The front entry of queue 0 leaves it.
fn take_front<A: Agenda<Item = LineEntry>>(line: &mut A) -> Option<Entry<LineEntry>>
    requires { A.Store.sound line.old }
    ensures sound { A.Store.sound line.new }
    ensures effect { Takes line_le (A.Store.meaning line.old) 0 (Ok result) (A.Store.meaning line.new) }
{
    line.take(0).unwrap()
}

// Takes the orders from queue 0 until it is empty, and gives them in that order. For want of memory none is taken.
pub fn serve<A: Agenda<Item = LineEntry>>(
    line: &mut A,
    heap: Global,
) -> Result<Vec<LineEntry>, AllocError>
    requires { A.Store.sound line.old }
    ensures sound { A.Store.sound line.new }
    ensures effect { MatchResult result (λ v. Served line_le (A.Store.meaning line.old) v.items (A.Store.meaning line.new)) (λ _. line.new ≡ line.old) }
{
    let mut served = Vec::with_capacity(heap, waiting(line) as usize)?;
    'serving: while let Some(entry) = take_front(line) {
        served.push_reserved(entry.element);
    }
    Ok(served)
}

// The orders as a bench takes them from the line: all are admitted first, and then served.
// From an unused store the answer is their order of service, as far as cells and stamps last.
pub fn order_of_service<A: Agenda<Item = LineEntry>>(
    line: &mut A,
    orders: &[LineEntry],
    heap: Global,
) -> Result<Vec<LineEntry>, Failure>
    requires { A.Store.sound line.old }
    ensures sound { A.Store.sound line.new }
    ensures effect { MatchResult result (λ v. Dispatched line_le (A.Store.meaning line.old) orders.now v.items (A.Store.meaning line.new)) (λ e. Failed line_le (A.Store.meaning line.old) orders.now e (A.Store.meaning line.new)) }
    ensures unused { Unused line_le (A.Store.meaning line.old) → MatchResult result (λ v. Enough (A.Store.meaning line.old).fixed.cells (A.Store.meaning line.old).fixed.stamps (length orders.now) × (v.items ≡ service_order orders.now)) (Hindered (A.Store.meaning line.old).fixed.cells (A.Store.meaning line.old).fixed.stamps (length orders.now)) }
{
    admit(line, orders)?;
    Ok(serve(line, heap)?)
}

// A theorem, with nothing to compute: whoever is served precedes all who are served later.
pub fn service_is_ranked<T: Ordered>()
    ensures { (xs : List T) → Ranked (precedes_by T.Ordered.le) (service T.Ordered.le xs) }
{}

// A theorem, with nothing to compute: everyone is served exactly once. Whatever is asked of an element, or of one with
// its place, as many who are served meet it as there are in the list.
pub fn service_is_complete<T: Ordered>()
    ensures elements { (xs : List T) (p : T → Bool) → count_by p (elements_of (service T.Ordered.le xs)) ≡ count_by p xs }
    ensures places { (xs : List T) (p : Entry T → Bool) → count_by p (service T.Ordered.le xs) ≡ count_by p (numbered 0 xs) }
{}
