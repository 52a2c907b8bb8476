// What a cell of the link slice holds: the one type in which heaps differ.
ghost use Rattle.std.specs.Prelude.{◌≡◌, Bool, Some};
ghost use Rattle.cells.specs.Trees.{Tree, leaf};
ghost use Rattle.cells.specs.Forms.{Form, HeapAt, Meldable, Melded, FrontIn, FrontTaken};
ghost use Rattle.cells.specs.Lawful.{Lawful};

use elements::{Entry, Ordered};

// A heap's nodes are cells of two slices, links and entries. `form` says how a heap lies in them, and what list it
// stands for.
pub trait HeapLink<T: Ordered + Copy>: Copy {
    ghost form: { (le : T → T → Bool) → Form le Self };

    // A heap's only node.
    fn single() -> Self
        ensures { result ≡ (form T.Ordered.le).link leaf leaf };

    // An idle cell, and the next one that it names.
    fn idle(next: Option<u16>) -> Self
        ensures { result ≡ (form T.Ordered.le).idle next };

    // No body by default for either: each type of link keeps it in a field of its own.
    fn next_idle(&self) -> Option<u16>
        ensures { result ≡ (form T.Ordered.le).right self.now };

    // Two slices and no struct of both: where a meld calls itself, it would have to promise that both are still held.
    // The heaps at a and b become one, whose root is the answer. Only their own cells are written.
    fn meld(links: &mut [Self], entries: &[Entry<T>], a: Option<u16>, b: Option<u16>) -> Option<u16>
        requires { (s : Tree (Entry T)) × (t : Tree (Entry T)) × Meldable (form T.Ordered.le) links.old entries.now a b s t }
        ensures { (s t : Tree (Entry T)) → Meldable (form T.Ordered.le) links.old entries.now a b s t → Melded (form T.Ordered.le) links.old entries.now s t links.new result };

    // The cell of the front entry of the heap at root. No body by default: not in every form the root is in front.
    fn front(links: &[Self], entries: &[Entry<T>], root: u16) -> u16
        requires { (t : Tree (Entry T)) × HeapAt (form T.Ordered.le) links.now entries.now (Some root) t }
        ensures { (t : Tree (Entry T)) → HeapAt (form T.Ordered.le) links.now entries.now (Some root) t → FrontIn (form T.Ordered.le) entries.now t result };

    // The front entry of the heap at root leaves it: the answer is its cell, and the root of the heap of the others.
    fn take_front(links: &mut [Self], entries: &[Entry<T>], root: u16) -> (u16, Option<u16>)
        requires { (t : Tree (Entry T)) × HeapAt (form T.Ordered.le) links.old entries.now (Some root) t }
        ensures { (t : Tree (Entry T)) → HeapAt (form T.Ordered.le) links.old entries.now (Some root) t → FrontTaken (form T.Ordered.le) links.old entries.now t links.new result.0 result.1 };

    ghost lawful: { Lawful (form T.Ordered.le) };
}
