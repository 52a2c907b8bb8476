// A journal of the last accepted changes, over any agenda. A number is `as usize` at an index: to the proofs that is
// the number itself, where `usize::from` is a call whose answer each proof would have to rewrite.
#![tactic(auto)]

mod journals;
mod logs;

pub use journals::Journal;
pub use logs::{Change, Log};
