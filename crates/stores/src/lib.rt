// What every store promises: 32 sorted queues of stamped entries, whatever heap, table or layer is underneath.
#![tactic(auto)]

mod agendas;
mod examples;
mod heaps;
mod laws;
mod queues;
mod refusals;
mod sizes;

pub use agendas::Agenda;
pub use examples::limits_bind_puts_only;
pub use heaps::BareHeap;
pub use laws::{counts_add_up, front_precedes_all, joined_has_both, sorted_stays_sorted};
pub use queues::Store;
pub use refusals::{Refusal, Unfit};
pub use sizes::Sizes;

pub const QUEUES: u8 = 32;
