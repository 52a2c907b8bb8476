// An agenda over any bare heap: a cancelled entry stays below until it would be at a front. A number
// is `as usize` at an index: to the proofs that is the number itself, where `usize::from` is a
// call whose answer each proof would have to rewrite.
#![tactic(auto)]

mod layer;
mod marking;

pub use layer::Lazy;
pub use marking::Marks;
