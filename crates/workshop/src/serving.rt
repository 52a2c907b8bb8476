// Starting, waiting and entering.
ghost use Rattle.std.specs.Prelude.{◌≡◌, ◌<◌, length};
ghost use Rattle.machine.specs.Network.{station, open_station};
ghost use Rattle.machine.specs.Step.{start, wait, enter, start_front};
ghost use Rattle.simulations.specs.Conditions.{NetworkFit};
ghost use Rattle.workshop.specs.Workshop.{Ready, Works};

use crate::{InHand, StationNumber, Workshop};
use elements::{Event, EventKind, LineEntry};
use machine::{Network, StoreName};
use stores::{Agenda, Refusal};

// The station that is reached from k by following closings. They form no ring, so 31 steps of the 32 suffice; a `while let`
// would need that as its measure.
fn open_station(net: &Network, k: StationNumber) -> StationNumber
    requires fit { NetworkFit net.now }
    ensures answer { result.number ≡ open_station net.now k.number }
{
    let mut r = k;
    'follow: for _turn in 0..32u8 {
        match net.stations[r.number as usize].into {
            Some(j) => r = StationNumber::new(j),
            None => return r,
        }
    }
    r
}

impl<E: Agenda<Item = Event>, O: Agenda<Item = LineEntry>> Workshop<'_, E, O> {
    // Starts the order in hand at station k, or strands it where the event store refuses its finish.
    fn start(&mut self, hand: InHand, k: StationNumber)
        requires place { self.old.used < length self.old.places.now }
        requires bench { (station self.old.net.now k.number).busy < 8 }
        requires ready { Ready E.Store.sound O.Store.sound E.Store.meaning O.Store.meaning self.old }
        ensures { Works E.Store.sound O.Store.sound E.Store.meaning O.Store.meaning (start hand.order k.number) 1 self.old self.new }
    {
        let takes = self.net.stations[k.number as usize].takes;
        let event = Event {
            time: self.run.instant + takes,
            kind: EventKind::Finish {
                order: hand.order,
                station: k.number,
            },
        };
        match self.events.put(0, event) {
            Ok(stamp) => self.begin(hand, k, stamp),
            Err(refusal) => {
                self.fail(refusal, StoreName::Events);
                self.strand(hand);
            }
        }
    }

    // Puts the order in hand in line k; at the line's limit it goes away, and where the order store refuses otherwise it is
    // stranded.
    fn wait(&mut self, hand: InHand, k: StationNumber)
        requires place { self.old.used < length self.old.places.now }
        requires ready { Ready E.Store.sound O.Store.sound E.Store.meaning O.Store.meaning self.old }
        ensures { Works E.Store.sound O.Store.sound E.Store.meaning O.Store.meaning (wait hand.order k.number) 1 self.old self.new }
    {
        let order = self.net.orders[hand.order as usize];
        let entry = LineEntry {
            order: hand.order,
            urgency: order.urgency,
            due: order.due,
        };
        match self.orders.put(k.number, entry) {
            Ok(stamp) => self.line_up(hand, k, stamp),
            // a match of its own, whose last arm has for the proofs that the refusal is not the limit
            Err(refusal) => match refusal {
                Refusal::AtLimit { .. } => self.send_away(hand, k),
                _ => {
                    self.fail(refusal, StoreName::Orders);
                    self.strand(hand);
                }
            },
        }
    }

    // The order in hand enters station k.
    pub(crate) fn enter(&mut self, hand: InHand, k: StationNumber)
        requires place { self.old.used < length self.old.places.now }
        requires ready { Ready E.Store.sound O.Store.sound E.Store.meaning O.Store.meaning self.old }
        ensures { Works E.Store.sound O.Store.sound E.Store.meaning O.Store.meaning (enter hand.order k.number) 1 self.old self.new }
    {
        let r = open_station(self.net, k);
        let station = self.net.stations[r.number as usize];
        if station.busy < station.benches {
            self.start(hand, r);
        } else {
            self.wait(hand, r);
        }
    }

    // The front of line k, if any, starts at station k.
    pub(crate) fn start_front(&mut self, k: StationNumber)
        requires place { self.old.used < length self.old.places.now }
        requires bench { (station self.old.net.now k.number).busy < 8 }
        requires ready { Ready E.Store.sound O.Store.sound E.Store.meaning O.Store.meaning self.old }
        ensures { Works E.Store.sound O.Store.sound E.Store.meaning O.Store.meaning (start_front k.number) 1 self.old self.new }
    {
        let front = self.orders.take(k.number).ok().flatten();
        if let Some(entry) = front {
            self.start(InHand::new(entry.element.order), k);
        }
    }
}
