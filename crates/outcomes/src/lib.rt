// What is claimed of a call over two real stores, told by the sorted-list machine (specs/), and how such claims compose.
#![tactic(auto)]

mod laws;

pub use laws::{agreed_calls_are_alike, enough_cells_suffice, outcomes_compose};
