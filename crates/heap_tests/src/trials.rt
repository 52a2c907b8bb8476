// What any heap is tried with: ties, refusals, empty queues, melds, and 4,096 cells filled and emptied.
use crate::calls::{Answer, Call, entry, event, make_call, number, run};
use elements::Event;
use std::test::Fail;
use store_checks::check;
use stores::{Sizes, Store};

// What a fresh store is tried with. A trait and no closure: a closure takes one type of store.
pub trait Trial {
    // How large the store is that the trial asks for.
    const SIZES: Sizes;

    fn run<S: Store<Item = Event>>(self, store: &mut S) -> Result<(), Fail>
        requires { S.Store.sound store.old };
}

// Equal elements come by stamp.
#[derive(Clone, Copy)]
pub struct Ties;

impl Trial for Ties {
    const SIZES: Sizes = Sizes {
        cells: 4,
        stamps: 9,
    };

    fn run<S: Store<Item = Event>>(self, store: &mut S) -> Result<(), Fail> {
        let calls = [
            (Call::Put { queue: 3, time: 7 }, Answer::Number(0)),
            (Call::Put { queue: 3, time: 5 }, Answer::Number(1)),
            (Call::Put { queue: 3, time: 7 }, Answer::Number(2)),
            (Call::Put { queue: 3, time: 5 }, Answer::Number(3)),
            (
                Call::First { queue: 3 },
                Answer::Entry { time: 5, stamp: 1 },
            ),
            (Call::Take { queue: 3 }, Answer::Entry { time: 5, stamp: 1 }),
            (Call::Take { queue: 3 }, Answer::Entry { time: 5, stamp: 3 }),
            (Call::Take { queue: 3 }, Answer::Entry { time: 7, stamp: 0 }),
            (Call::Take { queue: 3 }, Answer::Entry { time: 7, stamp: 2 }),
            (Call::Take { queue: 3 }, Answer::Nothing),
        ];
        run(store, &calls)
    }
}

// Each refusal, the lowest number first.
#[derive(Clone, Copy)]
pub struct Refusals;

impl Trial for Refusals {
    const SIZES: Sizes = Sizes {
        cells: 2,
        stamps: 2,
    };

    fn run<S: Store<Item = Event>>(self, store: &mut S) -> Result<(), Fail> {
        let calls = [
            (Call::Put { queue: 0, time: 9 }, Answer::Number(0)),
            (Call::Put { queue: 31, time: 8 }, Answer::Number(1)),
            // no cell and no stamp is left, and there is no such queue
            (Call::Put { queue: 32, time: 7 }, Answer::Refused(9)),
            (Call::Put { queue: 0, time: 7 }, Answer::Refused(12)),
            (Call::Take { queue: 0 }, Answer::Entry { time: 9, stamp: 0 }),
            (Call::Put { queue: 0, time: 7 }, Answer::Refused(13)),
            (Call::First { queue: 32 }, Answer::Refused(9)),
            (Call::Take { queue: 255 }, Answer::Refused(9)),
            (Call::Count { queue: 32 }, Answer::Refused(9)),
            (Call::Meld { into: 32, from: 32 }, Answer::Refused(9)),
            (Call::Meld { into: 0, from: 32 }, Answer::Refused(9)),
            (Call::Meld { into: 31, from: 31 }, Answer::Refused(10)),
            (
                Call::Take { queue: 31 },
                Answer::Entry { time: 8, stamp: 1 },
            ),
        ];
        run(store, &calls)
    }
}

// Melds of empty and full queues, both ways.
#[derive(Clone, Copy)]
pub struct Melds;

impl Trial for Melds {
    const SIZES: Sizes = Sizes {
        cells: 4,
        stamps: 4,
    };

    fn run<S: Store<Item = Event>>(self, store: &mut S) -> Result<(), Fail> {
        let calls = [
            (Call::Meld { into: 1, from: 2 }, Answer::Number(0)),
            (Call::Take { queue: 1 }, Answer::Nothing),
            (Call::Put { queue: 1, time: 4 }, Answer::Number(0)),
            (Call::Put { queue: 2, time: 4 }, Answer::Number(1)),
            (Call::Put { queue: 1, time: 6 }, Answer::Number(2)),
            (Call::Put { queue: 2, time: 2 }, Answer::Number(3)),
            (Call::Meld { into: 2, from: 1 }, Answer::Number(2)),
            (Call::Count { queue: 1 }, Answer::Number(0)),
            (Call::Count { queue: 2 }, Answer::Number(4)),
            (Call::Meld { into: 2, from: 1 }, Answer::Number(0)),
            (Call::Meld { into: 1, from: 2 }, Answer::Number(4)),
            (Call::First { queue: 2 }, Answer::Nothing),
            (Call::Take { queue: 1 }, Answer::Entry { time: 2, stamp: 3 }),
            (Call::Take { queue: 1 }, Answer::Entry { time: 4, stamp: 0 }),
            (Call::Take { queue: 1 }, Answer::Entry { time: 4, stamp: 1 }),
            (Call::Take { queue: 1 }, Answer::Entry { time: 6, stamp: 2 }),
            (Call::Take { queue: 1 }, Answer::Nothing),
        ];
        run(store, &calls)
    }
}

// Queue 0 gives events at the times from `start` to 4,095, in this order, and is then empty.
fn empties<S: Store<Item = Event>>(store: &mut S, start: u32) -> Result<(), Fail>
    requires { S.Store.sound store.old }
    ensures { S.Store.sound store.new }
{
    for time in start..4096 {
        let Some(front) = store.take(0)? else {
            return Err(Fail::new("no entry"));
        };
        check(front.element.time == time)?;
    }
    check(entry(store.take(0)) == Answer::Nothing)?;
    Ok(())
}

// Events at the times 0 to 4,095, each once and in no order, go into eight queues.
fn fills<S: Store<Item = Event>>(store: &mut S) -> Result<(), Fail>
    requires { S.Store.sound store.old }
    ensures { S.Store.sound store.new }
{
    for i in 0..4096u16 {
        let time = (u32::from(i) * 1021) % 4096;
        let queue = (i % 8) as u8;
        check(number(store.put(queue, event(time))) == Answer::Number(i))?;
    }
    Ok(())
}

// Seven of them are melded into the first.
fn gathers<S: Store<Item = Event>>(store: &mut S) -> Result<(), Fail>
    requires { S.Store.sound store.old }
    ensures { S.Store.sound store.new }
{
    for queue in 1..8u8 {
        check(number(store.meld(0, queue)) == Answer::Number(512))?;
    }
    Ok(())
}

// All cells are used, and the entries come out in their order.
#[derive(Clone, Copy)]
pub struct AllCells;

impl Trial for AllCells {
    const SIZES: Sizes = Sizes {
        cells: 4096,
        stamps: 4096,
    };

    fn run<S: Store<Item = Event>>(self, store: &mut S) -> Result<(), Fail> {
        let more = Call::Put { queue: 0, time: 0 };
        fills(store)?;
        check(make_call(store, more) == Answer::Refused(12))?;
        gathers(store)?;
        check(make_call(store, more) == Answer::Refused(12))?;
        empties(store, 0)?;
        check(make_call(store, more) == Answer::Refused(13))?;
        check(store.issued() == 4096)?;
        check(store.sizes() == Self::SIZES)?;
        check(store.height() == 0)?;
        Ok(())
    }
}

// Each later event is put behind all others, then the first is taken.
#[derive(Clone, Copy)]
pub struct Ascending;

impl Trial for Ascending {
    const SIZES: Sizes = Sizes {
        cells: 4096,
        stamps: 4096,
    };

    fn run<S: Store<Item = Event>>(self, store: &mut S) -> Result<(), Fail> {
        for i in 0..4096u16 {
            check(number(store.put(0, event(u32::from(i)))) == Answer::Number(i))?;
        }
        check(make_call(store, Call::Take { queue: 0 }) == Answer::Entry { time: 0, stamp: 0 })?;
        empties(store, 1)
    }
}
