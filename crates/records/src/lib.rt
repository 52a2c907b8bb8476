// Records of a queue's number and an entry, one to a cell of a slice. Each question is one pass over the cells.
#![tactic(auto)]

mod cells;
mod passes;

pub use cells::Record;
pub use passes::{clear, count_in, empty_cell, front_in, move_all, stamped_cell};
