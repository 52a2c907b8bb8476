// Finished orders.
ghost use Rattle.std.specs.Prelude.{◌≡◌, ◌+◌, ◌<◌, ◌≤◌, length};
ghost use Rattle.machine.specs.declared.records.RecordKind.TheVariants.{Finish};
ghost use Rattle.machine.specs.Step.{leave, finish};
ghost use Rattle.simulations.specs.Writes.{noted, vacated};
ghost use Rattle.workshop.specs.Workshop.{control, Ready, left, Works};

use crate::{InHand, StationNumber, Workshop};
use elements::{Event, LineEntry};
use machine::RecordKind;
use stores::Agenda;

impl<E: Agenda<Item = Event>, O: Agenda<Item = LineEntry>> Workshop<'_, E, O> {
    // The order has finished, and a bench of station k is free.
    fn vacate(&mut self, order: u16, k: StationNumber)
        requires place { self.old.used < length self.old.places.now }
        ensures { self.new ≡ left self.old (vacated k.number (control self.old)) (noted (Finish order k.number) (control self.old) self.old.places.now) }
    {
        self.note(RecordKind::Finish {
            order,
            station: k.number,
        });
        self.net.stations[k.number as usize].free_bench();
    }

    // The finished order in hand goes on from station k.
    fn leave(&mut self, hand: InHand, k: StationNumber)
        requires place { self.old.used < length self.old.places.now }
        requires ready { Ready E.Store.sound O.Store.sound E.Store.meaning O.Store.meaning self.old }
        ensures { Works E.Store.sound O.Store.sound E.Store.meaning O.Store.meaning (leave hand.order k.number) 1 self.old self.new }
    {
        match self.net.stations[k.number as usize].next {
            Some(j) => self.enter(hand, StationNumber::new(j)),
            None => self.complete(hand),
        }
    }

    // The order in hand has finished at station k: the line's front starts there, then it goes on; or it is stranded where that
    // start ended the run.
    pub(crate) fn finish(&mut self, hand: InHand, k: StationNumber)
        requires places { self.old.used + 3 ≤ length self.old.places.now }
        requires ready { Ready E.Store.sound O.Store.sound E.Store.meaning O.Store.meaning self.old }
        ensures { Works E.Store.sound O.Store.sound E.Store.meaning O.Store.meaning (finish hand.order k.number) 3 self.old self.new }
    {
        self.vacate(hand.order, k);
        self.start_front(k);
        if self.run.fault.is_some() {
            self.strand(hand);
        } else {
            self.leave(hand, k);
        }
    }
}
