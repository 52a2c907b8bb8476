// Calls in a row, of a store with nothing put.
ghost use Rattle.std.specs.Prelude.{◌≡◌};
ghost use Rattle.store_checks.specs.Scripts.{cancelling};

use crate::calls::{Answer, Call, make_call};
use elements::LineEntry;
use std::test::Fail;
use stores::Agenda;

// Of a store with 2 cells and 3 stamps or more: no cell is left, and a queue's number is refused before that.
pub const FULL: [(Call, Answer); 6] = [
    (Call::Put(0, 7, 1), Answer::Number(0)),
    (Call::Put(31, 8, 1), Answer::Number(1)),
    (Call::Put(0, 9, 1), Answer::Refused(12, 0)),
    (Call::Put(32, 9, 1), Answer::Refused(9, 0)),
    (Call::Take(31), Answer::Order(8)),
    (Call::Put(0, 9, 1), Answer::Number(2)),
];

// Of a store with 2 cells and 2 stamps: no stamp is left, and no cell is refused before that.
pub const SPENT: [(Call, Answer); 6] = [
    (Call::Put(0, 7, 1), Answer::Number(0)),
    (Call::Put(0, 8, 1), Answer::Number(1)),
    (Call::Put(0, 9, 1), Answer::Refused(12, 0)),
    (Call::Take(0), Answer::Order(7)),
    (Call::Put(0, 9, 1), Answer::Refused(13, 0)),
    (Call::Issued, Answer::Number(2)),
];

// Of a store with 4 cells and 4 stamps or more: two queues in one, where tied elements come out by their stamps.
pub const MELDED: [(Call, Answer); 11] = [
    (Call::Put(2, 7, 1), Answer::Number(0)),
    (Call::Put(1, 8, 1), Answer::Number(1)),
    (Call::Put(2, 9, 0), Answer::Number(2)),
    (Call::Meld(1, 0), Answer::Number(0)),
    (Call::Meld(1, 1), Answer::Refused(10, 0)),
    (Call::Meld(32, 32), Answer::Refused(9, 0)),
    (Call::Meld(1, 2), Answer::Number(2)),
    (Call::First(2), Answer::Nobody),
    (Call::Take(1), Answer::Order(9)),
    (Call::Take(1), Answer::Order(7)),
    (Call::Take(1), Answer::Order(8)),
];

// Of a store with 4 cells and 4 stamps or more: the most urgent first, and tied elements by their stamps.
pub const ORDERED: [(Call, Answer); 9] = [
    (Call::Put(0, 7, 4), Answer::Number(0)),
    (Call::Put(0, 8, 4), Answer::Number(1)),
    (Call::Put(0, 9, 2), Answer::Number(2)),
    (Call::First(32), Answer::Refused(9, 0)),
    (Call::First(0), Answer::Order(9)),
    (Call::Take(0), Answer::Order(9)),
    (Call::Take(0), Answer::Order(7)),
    (Call::Take(0), Answer::Order(8)),
    (Call::Take(0), Answer::Nobody),
];

// Of a store with 4 cells and 4 stamps or more, whose refused cancel carries the height: the front is cancelled, one
// behind it, the same again, and one that was never put.
pub fn cancelled(height: u8) -> [(Call, Answer); 9]
    ensures { result ≡ cancelling height }
{
    [
        (Call::Put(5, 7, 1), Answer::Number(0)),
        (Call::Put(5, 8, 2), Answer::Number(1)),
        (Call::Put(5, 9, 3), Answer::Number(2)),
        (Call::Cancel(0), Answer::Number(5)),
        (Call::First(5), Answer::Order(8)),
        (Call::Cancel(2), Answer::Number(5)),
        (Call::Cancel(2), Answer::Refused(14, height)),
        (Call::Cancel(3), Answer::Refused(14, height)),
        (Call::Count(5), Answer::Number(1)),
    ]
}

// Whether each call gets its answer.
pub fn passes<A: Agenda<Item = LineEntry>>(
    store: &mut A,
    script: &[(Call, Answer)],
) -> Result<(), Fail>
    requires { A.Store.sound store.old }
    ensures { A.Store.sound store.new }
{
    for (asked, answer) in script {
        let given = make_call(store, *asked);
        if given != *answer {
            return Err(Fail::new(format_args!("{given:?} is answered, and not {answer:?}")));
        }
    }
    Ok(())
}
