// What is printed for a waiting line whose orders go through a bare heap.
#![tactic(auto)]

ghost use Rattle.std.specs.Prelude.{IfOk, string_bytes};
ghost use Rattle.cancelled.specs.Cancelled.{Fit};
ghost use Rattle.service_reports.specs.Reports.{Printed};

use cells::HeapLink;
use elements::{Entry, LineEntry};
use heap_store::make;
use lazy::Lazy;
use service_reports::report;
use std::alloc::{AllocError, Global};
use stores::{BareHeap, Sizes};

// By a heap with nothing put yet, under the layer that makes an agenda of it.
pub fn report_over<B: BareHeap<Item = LineEntry> + Drop>(
    below: B,
    text: &[u8],
    heap: Global,
) -> Result<String, AllocError>
    requires sound { B.Store.sound below }
    requires fit { Fit (B.Store.meaning below) }
    ensures { IfOk result (λ s. Printed (B.Store.meaning below).fixed.cells (B.Store.meaning below).fixed.stamps text.now (string_bytes s)) }
{
    let mut line = Lazy::make(below);
    report(&mut line, text, heap)
}

// By a store of heaps of the given form, in memory of its own.
pub fn printed<L: HeapLink<LineEntry>>(text: &[u8], heap: Global) -> Result<String, AllocError>
    ensures { IfOk result (λ s. Printed 4096 32768 text.now (string_bytes s)) }
{
    let sizes = Sizes::LARGEST;
    let count = usize::from(sizes.cells);
    let mut links = vec![in heap; L::single(); count]?;
    let mut entries = vec![in heap; Entry::default(); count]?;
    let store = make::<L, LineEntry>(&mut links, &mut entries, sizes);
    report_over(store, text, heap)
}
