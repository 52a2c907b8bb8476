// Pairing heaps whose nodes are cells of two lent slices, links and entries, for any element type, and the store of 32
// queues over them.
#![tactic(auto)]

mod heaps;
mod links;
mod passes;

pub use heap_store::{fits, make};
pub use heaps::Pairing;
pub use links::Link;
pub use passes::{gather, pair_up};
