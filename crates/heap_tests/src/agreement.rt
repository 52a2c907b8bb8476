// The three heaps and the table answer one long list of calls alike.
use crate::calls::{Answer, Call, make_call};
use crate::heaps::tried;
use crate::trials::Trial;
use elements::Event;
use std::test::Fail;
use store_checks::check;
use stores::{Sizes, Store};

// How many calls are made.
const CALLS: usize = 8000;

// The i-th call: about half are puts, of eight times in four queues, then takes, and now and then a meld or a question.
fn nth_call(i: usize) -> Call {
    let n = (i % 8192) as u32 * 7919 % 8191;
    let m = n * n % 8191;
    let queue = (m % 4) as u8;
    match n % 32 {
        0..=16 => Call::Put {
            queue,
            time: m / 4 % 8,
        },
        17..=28 => Call::Take { queue },
        29 => Call::First { queue },
        30 => Call::Count { queue },
        _ => Call::Meld {
            into: queue,
            from: (m / 4 % 5) as u8,
        },
    }
}

// The answers of a store to the calls in a row.
#[derive(Drop)]
struct Answers<'a>(&'a mut [Answer]);

impl<'a> Trial for Answers<'a> {
    // so few that puts are refused for want of either
    const SIZES: Sizes = Sizes {
        cells: 120,
        stamps: 2500,
    };

    fn run<S: Store<Item = Event>>(self, store: &mut S) -> Result<(), Fail> {
        for (i, answer) in self.0.iter_mut().enumerate() {
            *answer = make_call(store, nth_call(i));
        }
        Ok(())
    }
}

fn table_answers(rt: &impl AllocGlobal, answers: &mut [Answer]) -> Result<(), Fail> {
    let heap = rt.alloc();
    let sizes = Answers::SIZES;
    let mut cells = vec![in heap; None; sizes.cells as usize]?;
    table::fits(&cells, sizes)?;
    let mut store = table::make(&mut cells, sizes);
    Answers(answers).run(&mut store)
}

fn same_answers(left: &[Answer], right: &[Answer]) -> Result<(), Fail> {
    check(left == right)
}

// How many of the answers are like this one.
fn times(answers: &[Answer], like: Answer) -> usize {
    answers.iter().filter(|answer| **answer == like).count()
}

#[test]
fn all_stores_answer_alike(rt: HostRuntime) -> Result<(), Fail> {
    let heap = rt.alloc();
    let mut answers = vec![in heap; Answer::Nothing; CALLS]?;
    let mut others = vec![in heap; Answer::Nothing; CALLS]?;
    table_answers(&rt, &mut answers)?;
    // the list has refusals of every kind that it can have, and few takes from an empty queue
    assert!(rt; times(&answers, Answer::Refused(10)) > 0);
    assert!(rt; times(&answers, Answer::Refused(12)) > 0);
    assert!(rt; times(&answers, Answer::Refused(13)) > 0);
    assert!(rt; times(&answers, Answer::Nothing) < CALLS / 8);
    tried::<leftist::Link, Answers>(&rt, Answers(&mut others))?;
    same_answers(&answers, &others)?;
    tried::<pairing::Link, Answers>(&rt, Answers(&mut others))?;
    same_answers(&answers, &others)?;
    tried::<binomial::Link, Answers>(&rt, Answers(&mut others))?;
    same_answers(&answers, &others)?;
    Ok(())
}
