// Calls of a store as values, and what they answer.
ghost use Rattle.std.specs.Prelude.{◌≡◌};
ghost use Rattle.stores.specs.Refusals.{number_of, height_of};
ghost use Rattle.store_checks.specs.declared.calls.Answer.TheVariants.{Refused};
ghost use Rattle.store_checks.specs.Answers.{answer_to, numbered, fronted};

use elements::{Entry, LineEntry};
use stores::{Agenda, Refusal, Store};

// A script has a call to a line, so what a call is made with stands by its place.
#[derive(Clone, Copy, PartialEq, Eq, Debug)]
pub enum Call {
    // queue, order, urgency
    Put(u8, u16, u8),
    First(u8),
    Take(u8),
    // into, from
    Meld(u8, u8),
    Count(u8),
    Cancel(u16),
    Issued,
}

#[derive(Clone, Copy, PartialEq, Eq, Debug)]
pub enum Answer {
    // a stamp, a count or a queue
    Number(u16),
    Order(u16),
    Nobody,
    // the refusal's number and height
    Refused(u8, u8),
}

impl From<Refusal> for Answer {
    ghost from_gives = { λ f a. a ≡ Refused (number_of f) (height_of f) };

    fn from(refusal: Refusal) -> Answer {
        Answer::Refused(refusal.number(), refusal.height())
    }
}

fn numbered(answer: Result<u16, Refusal>) -> Answer
    ensures { result ≡ numbered answer }
{
    answer.map_or_else(|refusal| Answer::from(refusal), |n| Answer::Number(n))
}

// By a match of three arms: a `map_or_else` would have a `map_or` within, and be no plainer.
fn fronted(answer: Result<Option<Entry<LineEntry>>, Refusal>) -> Answer
    ensures { result ≡ fronted answer }
{
    match answer {
        Ok(Some(entry)) => Answer::Order(entry.element.order),
        Ok(None) => Answer::Nobody,
        Err(refusal) => Answer::from(refusal),
    }
}

// Calls the store.
pub fn make_call<A: Agenda<Item = LineEntry>>(store: &mut A, call: Call) -> Answer
    requires { A.Store.sound store.old }
    ensures sound { A.Store.sound store.new }
    ensures answer { result ≡ answer_to (A.Store.meaning store.old) call }
{
    match call {
        Call::Put(queue, order, urgency) => {
            let element = LineEntry {
                order,
                urgency,
                due: 0,
            };
            numbered(store.put(queue, element))
        }
        Call::First(queue) => fronted(store.first(queue)),
        Call::Take(queue) => fronted(store.take(queue)),
        Call::Meld(into, from) => numbered(store.meld(into, from)),
        Call::Count(queue) => numbered(store.count(queue)),
        Call::Cancel(stamp) => numbered(store.cancel(stamp).map(u16::from)),
        Call::Issued => Answer::Number(store.issued()),
    }
}
