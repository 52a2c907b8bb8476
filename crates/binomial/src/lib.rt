// Binomial heaps whose nodes are cells of two lent slices, links and entries, for any element type, and the store of 32
// queues over them.
#![tactic(auto)]

mod heaps;
mod links;
mod roots;
mod trees;

pub use heap_store::{fits, make};
pub use heaps::Binomial;
pub use links::Link;
pub use roots::{least, take_out, turn_over};
pub use trees::degrees_are_low;
