// A step: the front event is taken, and happens.
ghost use Rattle.std.specs.Prelude.{◌≡◌, ◌+◌, ◌<◌, ◌≤◌, length, Some};
ghost use Rattle.stores.specs.Meaning.{list_of};
ghost use Rattle.stores.specs.Calls.{front};
ghost use Rattle.machine.specs.Lent.{step_places};
ghost use Rattle.machine.specs.Step.{react, step, due_by, told_by};
ghost use Rattle.simulations.specs.Calls.{Steps, ByAnswer, due_in};
ghost use Rattle.simulations.specs.Conditions.{KindFit, Fit};
ghost use Rattle.simulations.specs.Writes.{simulation};
ghost use Rattle.workshop.specs.Workshop.{under_way, simulated, Sound, Ready, Same, Works};

use crate::{InHand, Run, StationNumber, Workshop};
use elements::{Event, EventKind, LineEntry};
use machine::{Network, Progress, Record, TooShort};
use stores::Agenda;

// How many places a step may need for its records.
const STEP_PLACES: usize = 9;

// What a step answers: how many records it wrote, and how the run goes on.
#[derive(Clone, Copy, PartialEq, Eq, Debug)]
pub struct Step {
    pub written: usize,
    pub progress: Progress,
}

impl<E: Agenda<Item = Event>, O: Agenda<Item = LineEntry>> Workshop<'_, E, O> {
    // An event happens.
    fn react(&mut self, kind: EventKind)
        requires kind { KindFit kind }
        requires places { self.old.used + step_places ≤ length self.old.places.now }
        requires ready { Ready E.Store.sound O.Store.sound E.Store.meaning O.Store.meaning self.old }
        ensures { Works E.Store.sound O.Store.sound E.Store.meaning O.Store.meaning (react kind) step_places self.old self.new }
    {
        match kind {
            EventKind::Arrive { order, station } => self.enter(
                InHand::new(order),
                StationNumber::new(station),
            ),
            EventKind::Finish { order, station } => self.finish(
                InHand::new(order),
                StationNumber::new(station),
            ),
            EventKind::Withdraw { order } => self.withdraw(order, kind),
            EventKind::Close { station, into } => self.close(
                StationNumber::new(station),
                StationNumber::new(into),
            ),
        }
    }

    // Takes the event that is due, if any, and lets it happen at its time. The answer is that event.
    fn advance(&mut self) -> Option<Event>
        requires places { self.old.used + step_places ≤ length self.old.places.now }
        requires ready { Ready E.Store.sound O.Store.sound E.Store.meaning O.Store.meaning self.old }
        ensures works { Works E.Store.sound O.Store.sound E.Store.meaning O.Store.meaning step step_places self.old self.new }
        ensures answer { result ≡ due_in (simulated E.Store.meaning O.Store.meaning self.old) }
    {
        let due = self.run.due(self.events);
        if let Some(event) = due {
            let _ = self.events.take(0);
            self.run.instant = event.time;
            self.react(event.kind);
        }
        due
    }

    // A step, for whose records there is room from the first place on.
    fn step(&mut self) -> Step
        requires first { self.old.used ≡ 0 }
        requires places { step_places ≤ length self.old.places.now }
        requires ready { Ready E.Store.sound O.Store.sound E.Store.meaning O.Store.meaning self.old }
        ensures sound { Sound E.Store.sound O.Store.sound self.new }
        ensures steps { Steps (simulated E.Store.meaning O.Store.meaning self.old) (simulated E.Store.meaning O.Store.meaning self.new) result.written result.progress }
        ensures written { result.written ≡ self.new.used }
        ensures same { Same self.old self.new }
    {
        let taken = self.advance();
        Step {
            written: self.used,
            progress: self.run.progress(taken),
        }
    }
}

impl Run {
    // The event that a step takes: none after a fault, and none where the front one is later than the end.
    fn due<E: Agenda<Item = Event>>(&self, events: &E) -> Option<Event>
        requires sound { E.Store.sound events.now }
        ensures answer { result ≡ due_by self.now.fault (Some self.now.end) (front (list_of (E.Store.meaning events.now).state 0)) }
    {
        if self.fault.is_some() {
            return None;
        }
        let event = events.first(0).ok().flatten()?.element;
        (event.time <= self.end).then_some(event)
    }

    // What a step tells that took that event, or none.
    fn progress(&self, taken: Option<Event>) -> Progress
        ensures answer { result ≡ told_by self.now.fault taken }
    {
        match (self.fault, taken) {
            (Some(_), _) => Progress::Faulted,
            (None, Some(_)) => Progress::Stepped,
            (None, None) => Progress::Ended,
        }
    }

    // A step of the run: refused where fewer than 9 places are lent for its records.
    pub fn step<E: Agenda<Item = Event>, O: Agenda<Item = LineEntry>>(
        &mut self,
        net: &mut Network,
        events: &mut E,
        orders: &mut O,
        places: &mut [Record],
    ) -> Result<Step, TooShort>
        requires sound { (E.Store.sound events.old) × (O.Store.sound orders.old) }
        requires fit { Fit (simulation (under_way net.old self.old 0) (E.Store.meaning events.old) (O.Store.meaning orders.old) places.old) }
        ensures sound { (E.Store.sound events.new) × (O.Store.sound orders.new) }
        ensures steps { ByAnswer result (λ s. Steps (simulation (under_way net.old self.old 0) (E.Store.meaning events.old) (O.Store.meaning orders.old) places.old) (simulation (under_way net.new self.new s.written) (E.Store.meaning events.new) (O.Store.meaning orders.new) places.new) s.written s.progress) (length places.old < step_places) }
        ensures refused { ByAnswer result (λ _. Unit {0}) ((self.new ≡ self.old) × (net.new ≡ net.old) × (events.new ≡ events.old) × (orders.new ≡ orders.old) × (places.new ≡ places.old)) }
    {
        if places.len() < STEP_PLACES {
            return Err(TooShort);
        }
        let mut shop = Workshop {
            net,
            run: self,
            events,
            orders,
            places,
            used: 0,
        };
        Ok(shop.step())
    }
}
