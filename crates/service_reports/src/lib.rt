// What is printed for a waiting line: the orders as a bench takes them, or what is refused.
#![tactic(auto)]

ghost use Rattle.std.specs.Prelude.{◌≡◌, ℕ, List, IfOk, string_bytes, MatchResult};
ghost use Rattle.elements.specs.Elements.{line_le};
ghost use Rattle.dispatch.specs.Dispatching.{Unused};
ghost use Rattle.service_reports.specs.Reports.{Unread, Unserved, Countable, Told, Untold, Shown, Reported, Unreported, Printed};

mod texts;

use dispatch::{Failure, Rejected, order_of_service};
use elements::LineEntry;
use std::alloc::{AllocError, Global};
use stores::Agenda;
use texts::service_text;
use waiting_orders::{ReadFailure, read_orders};

// What is printed where a text is not read. Here and below `format!` writes the line: each is printed at one place, and a
// type of its own with `Display` would be no plainer.
fn unread_text(failure: ReadFailure, heap: Global) -> Result<String, AllocError>
    ensures { IfOk result (λ s. Unread failure (string_bytes s)) }
{
    match failure {
        ReadFailure::Line { number, why } => {
            format!(in heap; "(refused {} (line {number}))\n", why.number())
        }
        ReadFailure::NoMemory => Err(AllocError),
    }
}

// What is printed where no order of service is told. The first order stands on line 1.
fn unserved_text(failure: Failure, heap: Global) -> Result<String, AllocError>
    requires { Countable failure }
    ensures { IfOk result (λ s. Unserved failure (string_bytes s)) }
{
    match failure {
        Failure::Refused(Rejected { index, refusal }) => {
            let number = refusal.number();
            let line = index + 1;
            let height = refusal.height();
            format!(in heap; "(refused {number} (line {line}) (layer {height}))\n")
        }
        Failure::NoMemory => Err(AllocError),
    }
}

// What is printed of orders that go through the store.
fn orders_text<A: Agenda<Item = LineEntry>>(
    line: &mut A,
    orders: &[LineEntry],
    heap: Global,
) -> Result<String, AllocError>
    requires { A.Store.sound line.old }
    ensures sound { A.Store.sound line.new }
    ensures effect { MatchResult result (λ s. Told (A.Store.meaning line.old) orders.now (string_bytes s) (A.Store.meaning line.new)) (λ _. Untold (A.Store.meaning line.old) orders.now (A.Store.meaning line.new)) }
    ensures unused { Unused line_le (A.Store.meaning line.old) → IfOk result (λ s. Shown (A.Store.meaning line.old).fixed.cells (A.Store.meaning line.old).fixed.stamps orders.now (string_bytes s)) }
{
    // A failure is printed too, so there is none for `?` to hand on.
    match order_of_service(line, orders, heap) {
        Ok(served) => service_text(&served, heap),
        Err(failure) => unserved_text(failure, heap),
    }
}

// What is printed for the text of a waiting line, whose orders go through the store.
pub fn report<A: Agenda<Item = LineEntry>>(
    line: &mut A,
    text: &[u8],
    heap: Global,
) -> Result<String, AllocError>
    requires { A.Store.sound line.old }
    ensures sound { A.Store.sound line.new }
    ensures effect { MatchResult result (λ s. Reported (A.Store.meaning line.old) text.now (string_bytes s) (A.Store.meaning line.new)) (λ _. Unreported (A.Store.meaning line.old) text.now (A.Store.meaning line.new)) }
    ensures unused { Unused line_le (A.Store.meaning line.old) → IfOk result (λ s. Printed (A.Store.meaning line.old).fixed.cells (A.Store.meaning line.old).fixed.stamps text.now (string_bytes s)) }
{
    // A failure is printed too, so there is none for `?` to hand on.
    match read_orders(text, heap) {
        Ok(orders) => orders_text(line, &orders, heap),
        Err(failure) => unread_text(failure, heap),
    }
}

// A theorem, with nothing to compute: what is printed is settled by the text and by the cells and stamps of an unused
// store, whatever store it is.
pub fn report_is_determined()
    ensures { (cells stamps : ℕ) (text o p : List ℕ) → Printed cells stamps text o → Printed cells stamps text p → o ≡ p }
{}
