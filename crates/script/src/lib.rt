// Reads the lines of scripts: the forms that they tell, and the limits that the stations among them set. A script is cut
// into its lines by `scanner::Lines`.
#![tactic(auto)]

mod forms;
mod limits;

pub use forms::{read_form, read_line, too_long};
pub use limits::script_limits;
