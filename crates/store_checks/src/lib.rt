// Checks that every store passes, whatever is underneath: calls, each with the answer that it has to get.
#![tactic(auto)]

mod calls;
mod checks;
mod scripts;

pub use calls::{Answer, Call, make_call};
pub use checks::check;
pub use scripts::{FULL, MELDED, ORDERED, SPENT, cancelled, passes};
