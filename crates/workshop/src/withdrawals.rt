// Withdrawals.
ghost use Rattle.std.specs.Prelude.{◌≡◌, ◌+◌, ◌<◌, ◌≤◌, length};
ghost use Rattle.elements.specs.declared.events.EventKind.TheVariants.{Withdraw};
ghost use Rattle.machine.specs.declared.records.RecordKind.TheVariants.{Withdrawn};
ghost use Rattle.machine.specs.Network.{order, marked, freed};
ghost use Rattle.machine.specs.Step.{withdraw};
ghost use Rattle.simulations.specs.Conditions.{IsOrder};
ghost use Rattle.simulations.specs.Writes.{with_network, one_more, noted};
ghost use Rattle.workshop.specs.Workshop.{control, Ready, left, Works};
ghost use Rattle.workshop.specs.Withdrawals.{withdrawal, state_after};

use crate::{StationNumber, Workshop};
use elements::{Event, EventKind, LineEntry};
use machine::{OrderState, RecordKind};
use stores::Agenda;

// Where a withdrawal finds the order, with the stamp of the entry to cancel. Three cases, so no Option.
#[derive(Clone, Copy)]
pub(crate) enum Withdrawal {
    FromLine { stamp: u16 },
    FromBench { station: u8, stamp: u16 },
    Missed,
}

impl<E: Agenda<Item = Event>, O: Agenda<Item = LineEntry>> Workshop<'_, E, O> {
    // Order i, where it waits or is in service and the event is a withdrawal, is withdrawn. A rule of the project: one match on
    // the order's state and the event changes the state in place. Both together decide what is found, and one match shows that
    // no pair of them is left out.
    fn pull_out(&mut self, i: u16, kind: EventKind) -> Withdrawal
        requires order { IsOrder i }
        ensures answer { result ≡ withdrawal (order self.old.net.now i).state kind }
        ensures left { self.new ≡ left self.old (with_network (control self.old) (marked i (state_after (order self.old.net.now i).state kind) self.old.net.now)) self.old.places.now }
    {
        let state = &mut self.net.orders[i as usize].state;
        match (&mut *state, kind) {
            (OrderState::Waiting { stamp }, EventKind::Withdraw { .. }) => {
                let stamp = *stamp;
                *state = OrderState::Withdrawn;
                Withdrawal::FromLine { stamp }
            }
            (OrderState::InService { station, stamp }, EventKind::Withdraw { .. }) => {
                let station = *station;
                let stamp = *stamp;
                *state = OrderState::Withdrawn;
                Withdrawal::FromBench { station, stamp }
            }
            _ => Withdrawal::Missed,
        }
    }

    // Order i was withdrawn from its bench at station k, which is free.
    fn clear_bench(&mut self, i: u16, k: StationNumber)
        requires place { self.old.used < length self.old.places.now }
        ensures { self.new ≡ left self.old (one_more (with_network (control self.old) (freed k.number self.old.net.now))) (noted (Withdrawn i) (control self.old) self.old.places.now) }
    {
        self.net.stations[k.number as usize].free_bench();
        self.note(RecordKind::Withdrawn { order: i });
    }

    // Order i is withdrawn: its own state decides.
    pub(crate) fn withdraw(&mut self, i: u16, kind: EventKind)
        requires order { IsOrder i }
        requires kind { kind ≡ Withdraw i }
        requires places { self.old.used + 2 ≤ length self.old.places.now }
        requires ready { Ready E.Store.sound O.Store.sound E.Store.meaning O.Store.meaning self.old }
        ensures { Works E.Store.sound O.Store.sound E.Store.meaning O.Store.meaning (withdraw i) 2 self.old self.new }
    {
        match self.pull_out(i, kind) {
            Withdrawal::FromLine { stamp } => {
                let _ = self.orders.cancel(stamp);
                self.note(RecordKind::Withdrawn { order: i });
            }
            Withdrawal::FromBench { station, stamp } => {
                let _ = self.events.cancel(stamp);
                let k = StationNumber::new(station);
                self.clear_bench(i, k);
                self.start_front(k);
            }
            Withdrawal::Missed => self.note(RecordKind::Missed { order: i }),
        }
    }
}
