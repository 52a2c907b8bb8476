// What a caller of the store of leftist heaps can rely on: a proved function.
#![tactic(auto)]

ghost use Rattle.std.specs.Prelude.{◌≡◌, ℕ, length, Option};
ghost use Rattle.cells.specs.Queues.{Fit, placed};

use elements::{Entry, Ordered};
use leftist::{Leftist, Link, make};
use stores::{Refusal, Sizes, Store};

// What the lender of the entries knows once the store is gone: the put wrote one of them at most, and the take and the
// meld left them as they were.
pub fn entries_after<T: Ordered + Copy>(
    links: &mut [Link],
    entries: &mut [Entry<T>],
    sizes: Sizes,
    element: T,
) -> Result<u16, Refusal>
    requires { Fit (length links.old) (length entries.old) sizes.cells sizes.stamps }
    ensures { (i : Option ℕ) × (entries.new ≡ placed result i entries.old element) }
{
    let mut store: Leftist<'_, T> = make(links, entries, sizes);
    let answer = store.put(0, element);
    let _ = store.take(0);
    let _ = store.meld(0, 1);
    answer
}
