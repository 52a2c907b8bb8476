// What heaps of forests share: trees whose nodes name their first child and their next sibling, and two trees that become
// one.
#![tactic(auto)]

mod joins;
mod links;

pub use joins::{join, set_next};
pub use links::ForestLink;
