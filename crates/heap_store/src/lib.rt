// A store of 32 queues, each a heap in the cells of two lent slices, whatever the form of heap. It is made in two calls:
// `fits` tests the slices and sizes, and `make` takes what passed the test.
#![tactic(auto)]

mod idle;
mod store;

pub use cells::fits;
pub use idle::make_idle;
pub use store::{HeapStore, make};
