// The simulator's plain data, and the sorted-list machine that the simulator is held to. The machine is in specs/.
#![tactic(auto)]

mod examples;
mod forms;
mod lent;
mod networks;
mod records;

pub use examples::{example_runs, refusals_told};
pub use forms::{Form, FormRefusal, ScriptRefusal};
pub use lent::TooShort;
pub use networks::{Declared, Network, Order, OrderState, Station};
pub use records::{Fault, Progress, Record, RecordKind, StoreName, Totals};
