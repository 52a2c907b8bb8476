// The store over two lent slices.
ghost use Rattle.std.specs.Prelude.{◌≡◌, ◌<◌, ◌+◌, length, Some, refl, slice_index_or, slice_set};
ghost use Rattle.std.specs.List.{slice_get};
ghost use Rattle.stores.specs.Meaning.{WellFormed, fresh_bare};
ghost use Rattle.stores.specs.Promises.{Puts, Takes, Melds, Bare, Unchanged};
ghost use Rattle.cells.specs.Trees.{Tree, leaf};
ghost use Rattle.cells.specs.Forms.{HeapAt, Meldable, Melded, FrontTaken};
ghost use Rattle.cells.specs.Queues.{Fit, placed, with_idle};
ghost use Rattle.cells.proofs.Soundness.{formed};
ghost use Rattle.heap_store.specs.Store.{SameSlices, meaning_lent, sound_lent};

use crate::idle::make_idle;
use cells::{Heads, HeapLink, Queue};
use elements::{Entry, Ordered};
use std::mem;
use stores::{BareHeap, Refusal, Sizes, Store};

#[derive(Drop)]
pub struct HeapStore<'a, L, T> {
    links: &'a mut [L],
    entries: &'a mut [Entry<T>],
    heads: Heads,
}

// 32 empty queues over slices and sizes that passed the test. The entries stay as they are.
pub fn make<'a, L: HeapLink<T>, T: Ordered + Copy>(
    links: &'a mut [L],
    entries: &'a mut [Entry<T>],
    sizes: Sizes,
) -> HeapStore<'a, L, T>
    requires { Fit (length links.old) (length entries.old) sizes.cells sizes.stamps }
    ensures sound { sound_lent (L.form T.Ordered.le) result }
    ensures meaning { meaning_lent (L.form T.Ordered.le) result ≡ fresh_bare sizes.cells sizes.stamps }
    ensures formed { WellFormed T.Ordered.le (meaning_lent (L.form T.Ordered.le) result) }
    ensures bare { Bare (meaning_lent (L.form T.Ordered.le) result) }
    ensures entries { result.entries.now ≡ entries.old }
    ensures lent { (result.links.ghost_name ≡ links.entry.ghost_name) × (result.entries.ghost_name ≡ entries.entry.ghost_name) }
{
    let free = make_idle::<L, T>(links);
    let heads = Heads::fresh(free, sizes.stamps);
    HeapStore {
        links,
        entries,
        heads,
    }
}

impl<'a, L: HeapLink<T>, T: Ordered + Copy> HeapStore<'a, L, T> {
    // The first idle cell becomes a heap of its own, which holds the element under the next stamp.
    fn occupy(&mut self, cell: u16, element: T)
        requires links { cell < length self.old.links.now }
        requires entries { cell < length self.old.entries.now }
        requires stamps { self.old.heads.next < 65535 }
        ensures heads { self.new.heads ≡ with_idle self.old.heads ((L.form T.Ordered.le).right (slice_index_or self.old.links.now cell (L.form T.Ordered.le).none)) (self.old.heads.next + 1) }
        ensures links { self.new.links.now ≡ slice_set self.old.links.now cell ((L.form T.Ordered.le).link leaf leaf) }
        ensures entries { self.new.entries.now ≡ slice_set self.old.entries.now cell (record { element = element; stamp = self.old.heads.next }) }
        ensures lent { SameSlices self.old self.new }
    {
        let stamp = self.heads.next;
        self.heads.free = self.links[cell as usize].next_idle();
        self.heads.next = stamp + 1;
        self.links[cell as usize] = L::single();
        self.entries[cell as usize] = Entry { element, stamp };
    }

    fn entry(&self, cell: u16) -> Option<Entry<T>>
        ensures { result ≡ slice_get self.now.entries.now cell }
    {
        self.entries.get(cell as usize).copied()
    }

    // The cell becomes the first idle one.
    fn release(&mut self, cell: u16)
        requires { cell < length self.old.links.now }
        ensures heads { self.new.heads ≡ with_idle self.old.heads (Some cell) self.old.heads.next }
        ensures links { self.new.links.now ≡ slice_set self.old.links.now cell ((L.form T.Ordered.le).idle self.old.heads.free) }
        ensures entries { self.new.entries ≡ self.old.entries }
        ensures lent { SameSlices self.old self.new }
    {
        self.links[cell as usize] = L::idle(self.heads.free);
        self.heads.free = Some(cell);
    }

    // The heaps at a and b become one, whose root is the answer. The slices are taken out of the store and put back: a
    // `&mut` slice in a field, whose elements' type is a parameter, cannot be lent as a `&` slice yet.
    fn meld_roots(&mut self, a: Option<u16>, b: Option<u16>) -> Option<u16>
        requires { (s : Tree (Entry T)) × (t : Tree (Entry T)) × Meldable (L.form T.Ordered.le) self.old.links.now self.old.entries.now a b s t }
        ensures melded { (s t : Tree (Entry T)) → Meldable (L.form T.Ordered.le) self.old.links.now self.old.entries.now a b s t → Melded (L.form T.Ordered.le) self.old.links.now self.old.entries.now s t self.new.links.now result }
        ensures long { length self.new.links.now ≡ length self.old.links.now }
        ensures heads { self.new.heads ≡ self.old.heads }
        ensures entries { self.new.entries ≡ self.old.entries }
        ensures lent { SameSlices self.old self.new }
    {
        let links = mem::take(&mut self.links);
        let entries = mem::take(&mut self.entries);
        let root = L::meld(links, entries, a, b);
        self.links = links;
        self.entries = entries;
        root
    }

    // The front entry of the heap at root leaves it: its cell, and the root of the heap of the others.
    fn take_root(&mut self, root: u16) -> (u16, Option<u16>)
        requires { (t : Tree (Entry T)) × HeapAt (L.form T.Ordered.le) self.old.links.now self.old.entries.now (Some root) t }
        ensures taken { (t : Tree (Entry T)) → HeapAt (L.form T.Ordered.le) self.old.links.now self.old.entries.now (Some root) t → FrontTaken (L.form T.Ordered.le) self.old.links.now self.old.entries.now t self.new.links.now result.0 result.1 }
        ensures long { length self.new.links.now ≡ length self.old.links.now }
        ensures heads { self.new.heads ≡ self.old.heads }
        ensures entries { self.new.entries ≡ self.old.entries }
        ensures lent { SameSlices self.old self.new }
    {
        let links = mem::take(&mut self.links);
        let entries = mem::take(&mut self.entries);
        let taken = L::take_front(links, entries, root);
        self.links = links;
        self.entries = entries;
        taken
    }
}

// Beside what every store promises, each changing call says of the lent entries too what becomes of them.
impl<'a, L: HeapLink<T>, T: Ordered + Copy> Store for HeapStore<'a, L, T> {
    type Item = T;

    ghost meaning = { meaning_lent (L.form T.Ordered.le) };

    ghost sound = { sound_lent (L.form T.Ordered.le) };

    fn put(&mut self, queue: u8, element: T) -> Result<u16, Refusal>
        requires { sound_lent (L.form T.Ordered.le) self.old }
        ensures sound { sound_lent (L.form T.Ordered.le) self.new }
        ensures effect { Puts T.Ordered.le (meaning_lent (L.form T.Ordered.le) self.old) queue element result (meaning_lent (L.form T.Ordered.le) self.new) }
        ensures entries { self.new.entries.now ≡ placed result self.old.heads.free self.old.entries.now element }
        ensures refused { Unchanged result self.old self.new }
        ensures lent { SameSlices self.old self.new }
    {
        let Queue { root, count } = self.heads.queue(queue)?;
        let cell = self.heads.free.ok_or(Refusal::NoCell)?;
        let stamp = self.heads.next;
        if stamp == self.heads.stamps {
            return Err(Refusal::NoStamp);
        }
        self.occupy(cell, element);
        let melded = self.meld_roots(Some(cell), root);
        self.heads.settle(queue, melded, count + 1);
        Ok(stamp)
    }

    fn first(&self, queue: u8) -> Result<Option<Entry<T>>, Refusal> {
        // by let-else: a closure of `and_then` would lend both slices, and be no plainer
        let Some(root) = self.heads.queue(queue)?.root else {
            return Ok(None);
        };
        let cell = L::front(self.links, self.entries, root);
        Ok(self.entry(cell))
    }

    fn take(&mut self, queue: u8) -> Result<Option<Entry<T>>, Refusal>
        requires { sound_lent (L.form T.Ordered.le) self.old }
        ensures sound { sound_lent (L.form T.Ordered.le) self.new }
        ensures effect { Takes T.Ordered.le (meaning_lent (L.form T.Ordered.le) self.old) queue result (meaning_lent (L.form T.Ordered.le) self.new) }
        ensures entries { self.new.entries.now ≡ self.old.entries.now }
        ensures refused { Unchanged result self.old self.new }
        ensures lent { SameSlices self.old self.new }
    {
        let kept = self.heads.queue(queue)?;
        let Some(root) = kept.root else {
            return Ok(None);
        };
        let (cell, rest) = self.take_root(root);
        self.release(cell);
        self.heads.settle(queue, rest, kept.count - 1);
        Ok(self.entry(cell))
    }

    // No entry is moved or copied.
    fn meld(&mut self, into: u8, from: u8) -> Result<u16, Refusal>
        requires { sound_lent (L.form T.Ordered.le) self.old }
        ensures sound { sound_lent (L.form T.Ordered.le) self.new }
        ensures effect { Melds T.Ordered.le (meaning_lent (L.form T.Ordered.le) self.old) into from result (meaning_lent (L.form T.Ordered.le) self.new) }
        ensures entries { self.new.entries.now ≡ self.old.entries.now }
        ensures refused { Unchanged result self.old self.new }
        ensures lent { SameSlices self.old self.new }
    {
        let kept = self.heads.queue(into)?.root;
        let moved = self.heads.queue(from)?.root;
        if into == from {
            return Err(Refusal::SameQueue);
        }
        let melded = self.meld_roots(kept, moved);
        Ok(self.heads.unite(into, from, melded))
    }

    fn count(&self, queue: u8) -> Result<u16, Refusal> {
        Ok(self.heads.queue(queue)?.count)
    }

    fn issued(&self) -> u16 {
        self.heads.next
    }

    fn sizes(&self) -> Sizes {
        Sizes {
            // at most 4,096, so that it fits: `try_from` would have a failure that cannot come
            cells: self.links.len() as u16,
            stamps: self.heads.stamps,
        }
    }

    fn height(&self) -> u8 {
        0
    }

    ghost formed = { λ s h. formed (L.form T.Ordered.le) L.lawful h };
}

impl<'a, L: HeapLink<T>, T: Ordered + Copy> BareHeap for HeapStore<'a, L, T> {
    ghost bare = { λ s h. record { fixed = refl; held = refl } };
}
