// What all heaps share: trees whose nodes are cells of two lent slices, one tree to a queue, and the idle cells in a
// chain. A tree is an arena of indices in lent cells, since the project uses no heap memory.
// Indices go `as usize`, in all crates of heaps: to proofs that is the number itself, which usize::from only answers.
#![tactic(auto)]

mod heads;
mod links;
mod making;

pub use heads::{Heads, Queue};
pub use links::HeapLink;
pub use making::fits;
