// Lazy cancel over a leftist heap.
use elements::{Entry, LineEntry};
use lazy::Lazy;
use leftist::{Link, fits, make};
use std::test::Fail;
use store_checks::{Answer, Call, FULL, MELDED, ORDERED, SPENT, cancelled, passes};
use stores::Store;

fn run(
    rt: &impl AllocGlobal,
    cells: u16,
    stamps: u16,
    script: &[(Call, Answer)],
) -> Result<(), Fail> {
    let heap = rt.alloc();
    let sizes = stores::Sizes { cells, stamps };
    let mut links = vec![in heap; Link::idle(None); cells as usize]?;
    let mut entries = vec![in heap; Entry::default(); cells as usize]?;
    fits(&links, &entries, sizes)?;
    let store = make(&mut links, &mut entries, sizes);
    Lazy::fits(&store)?;
    let mut lazy = Lazy::make(store);
    passes(&mut lazy, script)
}

#[test]
fn stores_as_any_agenda(rt: HostRuntime) -> Result<(), Fail> {
    run(&rt, 4, 4, &cancelled(1))?;
    run(&rt, 4, 4, &MELDED)?;
    run(&rt, 4, 4, &ORDERED)?;
    run(&rt, 2, 3, &FULL)?;
    run(&rt, 2, 2, &SPENT)
}

#[test]
fn cancelled_behind_keeps_its_cell(rt: HostRuntime) -> Result<(), Fail> {
    let script = [
        (Call::Put(0, 7, 1), Answer::Number(0)),
        (Call::Put(0, 8, 2), Answer::Number(1)),
        (Call::Cancel(1), Answer::Number(0)),
        (Call::Count(0), Answer::Number(1)),
        (Call::Put(0, 9, 3), Answer::Refused(12, 0)),
        (Call::Take(0), Answer::Order(7)),
        (Call::First(0), Answer::Nobody),
        (Call::Put(0, 9, 3), Answer::Number(2)),
    ];
    run(&rt, 2, 4, &script)
}

#[test]
fn cancelled_front_frees_its_cell(rt: HostRuntime) -> Result<(), Fail> {
    let script = [
        (Call::Put(0, 7, 1), Answer::Number(0)),
        (Call::Put(0, 8, 2), Answer::Number(1)),
        (Call::Cancel(0), Answer::Number(0)),
        (Call::First(0), Answer::Order(8)),
        (Call::Put(0, 9, 3), Answer::Number(2)),
    ];
    run(&rt, 2, 4, &script)
}

#[test]
fn moved_entries_are_cancelled_where_they_are(rt: HostRuntime) -> Result<(), Fail> {
    let script = [
        (Call::Put(3, 7, 1), Answer::Number(0)),
        (Call::Put(3, 8, 2), Answer::Number(1)),
        (Call::Put(4, 9, 1), Answer::Number(2)),
        (Call::Cancel(1), Answer::Number(3)),
        // the cancelled one moves below, and does not count
        (Call::Meld(4, 3), Answer::Number(1)),
        (Call::Count(4), Answer::Number(2)),
        (Call::Cancel(0), Answer::Number(4)),
        (Call::Take(4), Answer::Order(9)),
        (Call::Take(4), Answer::Nobody),
        (Call::Cancel(2), Answer::Refused(14, 1)),
        (Call::Issued, Answer::Number(3)),
    ];
    run(&rt, 3, 8, &script)
}

#[test]
fn used_heap_is_not_fresh(rt: HostRuntime) -> Result<(), Fail> {
    let mut links = [Link::idle(None); 1];
    let mut entries = [Entry::default(); 1];
    let sizes = stores::Sizes {
        cells: 1,
        stamps: 2,
    };
    let mut store = make(&mut links, &mut entries, sizes);
    let _ = store.put(0, LineEntry::default());
    let _ = store.take(0);
    let unfit = Lazy::fits(&store).err();
    assert_eq!(rt; unfit.map(|unfit| unfit.number()), Some(2));
    Ok(())
}
