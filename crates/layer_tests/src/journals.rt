// Journals: over a quota over a table, and over a quota over a lazy layer over a leftist heap.
use elements::{Entry, LineEntry};
use journal::Change;
use leftist::Link;
use piles::{journal_over_quota, journal_over_quota_over_lazy};
use records::Record;
use std::test::Fail;
use store_checks::{Answer, Call, cancelled, passes};
use stores::{Sizes, Store};

#[test]
fn last_changes_are_kept(rt: HostRuntime) -> Result<(), Fail> {
    let mut cells: [Option<Record<LineEntry>>; 4] = [None; 4];
    let script = [
        (Call::Put(0, 7, 1), Answer::Number(0)),
        (Call::Put(1, 8, 1), Answer::Number(1)),
        (Call::Put(1, 9, 1), Answer::Refused(11, 1)),
        (Call::Take(2), Answer::Nobody),
        (Call::Meld(0, 1), Answer::Number(1)),
        (Call::Take(0), Answer::Order(7)),
        (Call::Cancel(1), Answer::Number(0)),
    ];
    let table = table::make(
        &mut cells,
        Sizes {
            cells: 4,
            stamps: 8,
        },
    );
    let mut store = journal_over_quota(table, [1; 32], 3)?;
    passes(&mut store, &script)?;
    assert_eq!(rt; store.oldest(0), Some(Change::Meld { into: 0, from: 1 }));
    assert_eq!(rt; store.oldest(1), Some(Change::Take { queue: 0, stamp: 0 }));
    assert_eq!(rt; store.oldest(2), Some(Change::Cancel { stamp: 1 }));
    assert_eq!(rt; store.oldest(3), None);
    Ok(())
}

// Whether a journal may have so many places.
fn places_allowed(used: u16) -> bool {
    let mut cells: [Option<Record<LineEntry>>; 1] = [None; 1];
    let table = table::make(
        &mut cells,
        Sizes {
            cells: 1,
            stamps: 1,
        },
    );
    journal_over_quota(table, [1; 32], used).is_ok()
}

#[test]
fn places_are_tested(rt: HostRuntime) {
    assert!(rt; !places_allowed(0));
    assert!(rt; places_allowed(1));
    assert!(rt; places_allowed(1024));
    assert!(rt; !places_allowed(1025));
}

#[test]
fn whole_pile_over_a_heap(rt: HostRuntime) -> Result<(), Fail> {
    let mut links = [Link::idle(None); 4];
    let mut entries = [Entry::default(); 4];
    let sizes = stores::Sizes {
        cells: 4,
        stamps: 4,
    };
    let heap = leftist::make(&mut links, &mut entries, sizes);
    let mut store = journal_over_quota_over_lazy(heap, [65535; 32], 2)?;
    passes(&mut store, &cancelled(1))?;
    assert_eq!(rt; store.oldest(0), Some(Change::Cancel { stamp: 0 }));
    assert_eq!(rt; store.oldest(1), Some(Change::Cancel { stamp: 2 }));
    assert_eq!(rt; store.height(), 3);
    Ok(())
}
