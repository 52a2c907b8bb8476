// Calls of a store, and their answers, as values that can be listed and compared. They stay beside those in store_checks:
// these put events and tell stamps; those put orders, tell the height of a refusal too, and stand in a contract.
use elements::{Entry, Event, EventKind};
use std::test::Fail;
use store_checks::check;
use stores::{Refusal, Store};

#[derive(Clone, Copy)]
pub enum Call {
    Put { queue: u8, time: u32 },
    First { queue: u8 },
    Take { queue: u8 },
    Meld { into: u8, from: u8 },
    Count { queue: u8 },
}

#[derive(Clone, Copy, PartialEq, Eq, Debug)]
pub enum Answer {
    // a stamp, or how many
    Number(u16),
    Entry { time: u32, stamp: u16 },
    Nothing,
    Refused(u8),
}

pub fn event(time: u32) -> Event {
    Event {
        time,
        kind: EventKind::Withdraw { order: 0 },
    }
}

// What a cell holds at first. No default: an event has none, since no kind of event is what there is by default.
pub fn blank() -> Entry<Event> {
    Entry {
        element: event(0),
        stamp: 0,
    }
}

pub fn number(answer: Result<u16, Refusal>) -> Answer {
    answer.map_or_else(|e| Answer::Refused(e.number()), |n| Answer::Number(n))
}

// By a match of three arms: a `map_or_else` would have a `map_or` within, and be no plainer.
pub fn entry(answer: Result<Option<Entry<Event>>, Refusal>) -> Answer {
    match answer {
        Ok(Some(front)) => Answer::Entry {
            time: front.element.time,
            stamp: front.stamp,
        },
        Ok(None) => Answer::Nothing,
        Err(e) => Answer::Refused(e.number()),
    }
}

pub fn make_call<S: Store<Item = Event>>(store: &mut S, call: Call) -> Answer
    requires { S.Store.sound store.old }
    ensures { S.Store.sound store.new }
{
    match call {
        Call::Put { queue, time } => number(store.put(queue, event(time))),
        Call::First { queue } => entry(store.first(queue)),
        Call::Take { queue } => entry(store.take(queue)),
        Call::Meld { into, from } => number(store.meld(into, from)),
        Call::Count { queue } => number(store.count(queue)),
    }
}

// Each call gives the answer beside it.
pub fn run<S: Store<Item = Event>>(store: &mut S, calls: &[(Call, Answer)]) -> Result<(), Fail>
    requires { S.Store.sound store.old }
    ensures { S.Store.sound store.new }
{
    for (call, expected) in calls {
        check(make_call(store, *call) == *expected)?;
    }
    Ok(())
}
