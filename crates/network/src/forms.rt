// The forms of a draft: the numbers are tested for their ranges, the form for its place, the stations for having been
// declared, and then the event store may refuse. A number in its range is narrowed by `as`: `try_from` would have an error that
// cannot come.
ghost use Rattle.std.specs.Prelude.{◌≡◌, ◌<◌, ◌≤◌, None};
ghost use Rattle.machine.specs.declared.forms.Form.TheVariants.{Station as a-station, Order as an-order, Withdraw as a-withdrawal, Close as a-closing};
ghost use Rattle.machine.specs.Network.{with_new_station, with_new_order};
ghost use Rattle.simulations.specs.Calls.{ByAnswer};
ghost use Rattle.simulations.specs.Conditions.{WhenSome, Fit};
ghost use Rattle.simulations.specs.Drafts.{Forms};
ghost use Rattle.network.specs.Checks.{refusal_in};
ghost use Rattle.network.specs.Networks.{drafted, Announcing};

use crate::Draft;
use crate::checks::check;
use elements::{Event, EventKind, LineEntry};
use machine::{Form, FormRefusal, Order, OrderState, Station};
use stores::Agenda;

// A station's number in the width of a station.
fn narrowed(next: Option<u32>) -> Option<u8>
    requires range { WhenSome (λ k. k ≤ 31) next }
    ensures { result ≡ next }
{
    next.map(|k| k as u8)
}

// Puts the event of a form at a tick.
fn announce<E: Agenda<Item = Event>>(
    events: &mut E,
    at: u32,
    kind: EventKind,
) -> Result<(), FormRefusal>
    requires sound { E.Store.sound events.old }
    ensures sound { E.Store.sound events.new }
    ensures put { Announcing at kind (E.Store.meaning events.old) result (E.Store.meaning events.new) }
    ensures refused { ByAnswer result (λ _. Unit {0}) (events.new ≡ events.old) }
{
    events.put(0, Event { time: at, kind })?;
    Ok(())
}

// The clauses of the four forms are alike. A word for them would have to take the form, the draft and both meanings before and
// after, and the answer, so that a clause by that word is as long as the clauses.
// A form comes as its numbers and not as a `Form`, since the call's name says which form it is.
// `add_station` and `add_order` stay two: their arrays are of two types, and their counters of two widths.
impl<'a> Draft<'a> {
    // One station more, which is station k.
    fn add_station(&mut self, k: usize, station: Station)
        requires range { (k < 32) × (self.old.net.now.declared.stations < 32) }
        ensures { self.new.net.now ≡ with_new_station self.old.net.now k station }
    {
        self.net.stations[k] = station;
        self.net.declared.stations += 1;
    }

    // One order more, which is order i.
    fn add_order(&mut self, i: usize, order: Order)
        requires range { (i < 1024) × (self.old.net.now.declared.orders < 1024) }
        ensures { self.new.net.now ≡ with_new_order self.old.net.now i order }
    {
        self.net.orders[i] = order;
        self.net.declared.orders += 1;
    }

    // A station: its number, its benches, the ticks of a service, the limit of its line, and the next station or none.
    pub fn station<E: Agenda<Item = Event>, O: Agenda<Item = LineEntry>>(
        &mut self,
        station: u32,
        benches: u32,
        takes: u32,
        holds: u32,
        next: Option<u32>,
        events: &mut E,
        orders: &mut O,
    ) -> Result<(), FormRefusal>
        requires sound { (E.Store.sound events.old) × (O.Store.sound orders.old) }
        requires fit { Fit (drafted self.old (E.Store.meaning events.old) (O.Store.meaning orders.old) None) }
        ensures sound { (E.Store.sound events.new) × (O.Store.sound orders.new) }
        ensures forms { Forms (a-station station benches takes holds next) (drafted self.old (E.Store.meaning events.old) (O.Store.meaning orders.old)) (drafted self.new (E.Store.meaning events.new) (O.Store.meaning orders.new)) (refusal_in result) }
        ensures refused { ByAnswer result (λ _. Unit {0}) ((self.new ≡ self.old) × (events.new ≡ events.old) × (orders.new ≡ orders.old)) }
    {
        let form = Form::Station {
            station,
            benches,
            takes,
            holds,
            next,
        };
        check(self.net, events.issued(), form)?;
        let new = Station {
            benches: benches as u8,
            busy: 0,
            takes,
            holds: holds as u16,
            next: narrowed(next),
            into: None,
        };
        self.add_station(station as usize, new);
        Ok(())
    }

    // An order: its number, when it arrives, its urgency, its due tick, and where it arrives.
    pub fn order<E: Agenda<Item = Event>, O: Agenda<Item = LineEntry>>(
        &mut self,
        order: u32,
        at: u32,
        urgency: u32,
        due: u32,
        start: u32,
        events: &mut E,
        orders: &mut O,
    ) -> Result<(), FormRefusal>
        requires sound { (E.Store.sound events.old) × (O.Store.sound orders.old) }
        requires fit { Fit (drafted self.old (E.Store.meaning events.old) (O.Store.meaning orders.old) None) }
        ensures sound { (E.Store.sound events.new) × (O.Store.sound orders.new) }
        ensures forms { Forms (an-order order at urgency due start) (drafted self.old (E.Store.meaning events.old) (O.Store.meaning orders.old)) (drafted self.new (E.Store.meaning events.new) (O.Store.meaning orders.new)) (refusal_in result) }
        ensures refused { ByAnswer result (λ _. Unit {0}) ((self.new ≡ self.old) × (events.new ≡ events.old) × (orders.new ≡ orders.old)) }
    {
        let form = Form::Order {
            order,
            at,
            urgency,
            due,
            start,
        };
        check(self.net, events.issued(), form)?;
        let kind = EventKind::Arrive {
            order: order as u16,
            station: start as u8,
        };
        announce(events, at, kind)?;
        let new = Order {
            urgency: urgency as u8,
            due,
            start: start as u8,
            state: OrderState::NotYet,
        };
        self.add_order(order as usize, new);
        Ok(())
    }

    // The withdrawal of an order at a tick.
    pub fn withdraw<E: Agenda<Item = Event>, O: Agenda<Item = LineEntry>>(
        &mut self,
        order: u32,
        at: u32,
        events: &mut E,
        orders: &mut O,
    ) -> Result<(), FormRefusal>
        requires sound { (E.Store.sound events.old) × (O.Store.sound orders.old) }
        requires fit { Fit (drafted self.old (E.Store.meaning events.old) (O.Store.meaning orders.old) None) }
        ensures sound { (E.Store.sound events.new) × (O.Store.sound orders.new) }
        ensures forms { Forms (a-withdrawal order at) (drafted self.old (E.Store.meaning events.old) (O.Store.meaning orders.old)) (drafted self.new (E.Store.meaning events.new) (O.Store.meaning orders.new)) (refusal_in result) }
        ensures refused { ByAnswer result (λ _. Unit {0}) ((self.new ≡ self.old) × (events.new ≡ events.old) × (orders.new ≡ orders.old)) }
    {
        check(self.net, events.issued(), Form::Withdraw { order, at })?;
        let kind = EventKind::Withdraw {
            order: order as u16,
        };
        announce(events, at, kind)
    }

    // The closing of a station into another at a tick.
    pub fn close<E: Agenda<Item = Event>, O: Agenda<Item = LineEntry>>(
        &mut self,
        station: u32,
        at: u32,
        into: u32,
        events: &mut E,
        orders: &mut O,
    ) -> Result<(), FormRefusal>
        requires sound { (E.Store.sound events.old) × (O.Store.sound orders.old) }
        requires fit { Fit (drafted self.old (E.Store.meaning events.old) (O.Store.meaning orders.old) None) }
        ensures sound { (E.Store.sound events.new) × (O.Store.sound orders.new) }
        ensures forms { Forms (a-closing station at into) (drafted self.old (E.Store.meaning events.old) (O.Store.meaning orders.old)) (drafted self.new (E.Store.meaning events.new) (O.Store.meaning orders.new)) (refusal_in result) }
        ensures refused { ByAnswer result (λ _. Unit {0}) ((self.new ≡ self.old) × (events.new ≡ events.old) × (orders.new ≡ orders.old)) }
    {
        check(self.net, events.issued(), Form::Close { station, at, into })?;
        let kind = EventKind::Close {
            station: station as u8,
            into: into as u8,
        };
        announce(events, at, kind)
    }
}
