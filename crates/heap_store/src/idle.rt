// The chain of idle cells.
ghost use Rattle.std.specs.Prelude.{◌≤◌, length};
ghost use Rattle.cells.specs.IdleCells.{IdleFrom};

use cells::HeapLink;
use elements::Ordered;

// Every cell becomes idle and names the next; the answer is the first.
pub fn make_idle<L: HeapLink<T>, T: Ordered + Copy>(links: &mut [L]) -> Option<u16>
    requires { length links.old ≤ 4096 }
    ensures { IdleFrom (L.form T.Ordered.le).none (L.form T.Ordered.le).idle links.new result 0 }
{
    let mut free = None;
    // by numbers: over `iter_mut().enumerate().rev()` an invariant cannot speak of the cells written so far
    for i in (0..links.len()).rev() {
        links[i] = L::idle(free);
        // below 4,096, so that it fits
        free = Some(i as u16);
    }
    free
}
