// The laws of the sorted-list machine over whole runs.
#![tactic(auto)]

mod laws;

pub use laws::{
    arrived_adds_up, closings_lead_to_open, front_goes_first, orders_are_located, runs_end,
    starts_are_finished, steps_make_few_records, stopped_is_unstopped_before, times_never_fall,
};
