// Each trial over each form of heap.
use crate::calls::blank;
use crate::trials::{AllCells, Ascending, Melds, Refusals, Ties, Trial};
use cells::HeapLink;
use elements::Event;
use heap_store::{fits, make};
use std::process::Abort;
use std::test::Fail;
use stores::Sizes;

// The trial over a fresh store of one form of heap.
pub fn tried<L: HeapLink<Event>, C: Trial + Drop>(
    rt: &impl AllocGlobal,
    trial: C,
) -> Result<(), Fail> {
    let heap = rt.alloc();
    let sizes = C::SIZES;
    let mut links = vec![in heap; L::idle(None); sizes.cells as usize]?;
    let mut entries = vec![in heap; blank(); sizes.cells as usize]?;
    fits(&links, &entries, sizes)?;
    let mut store = make::<L, Event>(&mut links, &mut entries, sizes);
    trial.run(&mut store)
}

// The same over each form of heap.
fn on_each_heap<C: Trial + Copy>(rt: &impl AllocGlobal, trial: C) -> Result<(), Fail> {
    tried::<leftist::Link, C>(rt, trial)?;
    tried::<pairing::Link, C>(rt, trial)?;
    tried::<binomial::Link, C>(rt, trial)
}

// Whether a store of so many cells and stamps can be made over these links, of which there are two.
fn two_fit<L>(links: &[L], cells: u16, stamps: u16) -> bool {
    let entries = [blank(); 2];
    fits(links, &entries, Sizes { cells, stamps }).is_ok()
}

fn sizes_fit<L>(rt: &impl Abort, links: &[L]) {
    assert!(rt; two_fit(links, 2, 1));
    assert!(rt; two_fit(links, 2, 32768));
    assert!(rt; !two_fit(links, 2, 0));
    assert!(rt; !two_fit(links, 2, 32769));
    assert!(rt; !two_fit(links, 1, 1));
    assert!(rt; !two_fit(links, 3, 1));
    assert!(rt; !two_fit(links, 0, 1));
}

#[test]
fn sizes_that_fit(rt: HostRuntime) {
    sizes_fit(&rt, &[leftist::Link::idle(None); 2]);
    sizes_fit(&rt, &[pairing::Link::idle(None); 2]);
    sizes_fit(&rt, &[binomial::Link::idle(None); 2]);
}

#[test]
fn equal_elements_come_by_stamp(rt: HostRuntime) -> Result<(), Fail> {
    on_each_heap(&rt, Ties)
}

#[test]
fn refusals_in_their_order(rt: HostRuntime) -> Result<(), Fail> {
    on_each_heap(&rt, Refusals)
}

#[test]
fn melds_of_queues(rt: HostRuntime) -> Result<(), Fail> {
    on_each_heap(&rt, Melds)
}

#[test]
fn fills_and_empties_all_cells(rt: HostRuntime) -> Result<(), Fail> {
    on_each_heap(&rt, AllCells)
}

// In a pairing heap the first root has all 4,095 other nodes for children when it is taken. In a binomial heap there are
// twelve carries in a row when the last is put, and a tree of degree 12 loses its root.
#[test]
fn takes_the_first_of_all(rt: HostRuntime) -> Result<(), Fail> {
    on_each_heap(&rt, Ascending)
}
