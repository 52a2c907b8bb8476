// The workshop: what happens at the stations of a network in a step of its run, over two stores, any two agendas.
#![tactic(auto)]

mod closings;
mod finishes;
mod hands;
mod serving;
mod stations;
mod steps;
mod withdrawals;

use hands::InHand;
use machine::{Fault, Network, Record};
use stations::StationNumber;
pub use steps::Step;

// How far a run is.
#[derive(Clone, Copy, PartialEq, Eq, Debug)]
pub struct Run {
    // in ticks
    pub instant: u32,
    pub end: u32,
    // why the run ended before its end
    pub fault: Option<Fault>,
}

// All that a step works on, which is lent to it.
// Indices are widened by `as usize`: to the proofs that is the number itself, where `usize::from` is a call whose answer each
// proof would have to rewrite.
// How many places are free stays a clause: calls ask for 1, 2, 3, 8 or 9 of them, so no one number is a fact of the type.
// `Ready` stays one too: it does not hold between a put into a store and the record of it, so it is no invariant.
// That station k has a bench free stays one: it is a fact of the network and k together, which the start at k may end.
#[derive(Drop)]
struct Workshop<'a, E, O> {
    net: &'a mut Network,
    run: &'a mut Run,
    // the events, in queue 0
    events: &'a mut E,
    // the orders that wait; line k is queue k
    orders: &'a mut O,
    // for the records of the step: lent, of any length, as the project has no heap for a vector
    places: &'a mut [Record],
    // how many of the places are written, which the step tells
    used: usize,
}
