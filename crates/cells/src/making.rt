// The test before a store of heaps is made.
ghost use Rattle.std.specs.Prelude.{length};
ghost use Rattle.stores.specs.declared.refusals.Unfit.TheVariants.{OutOfRange};
ghost use Rattle.stores.specs.Refusals.{Tests};
ghost use Rattle.cells.specs.Queues.{Fit};

use stores::{Sizes, Unfit};

// Whether a store of so many cells and stamps can be made over the two slices.
pub fn fits<K, T>(links: &[K], entries: &[T], sizes: Sizes) -> Result<(), Unfit>
    ensures { Tests result OutOfRange (Fit (length links.now) (length entries.now) sizes.cells sizes.stamps) }
{
    let cells = sizes.cells as usize;
    if sizes.are_allowed() && links.len() == cells && entries.len() == cells {
        Ok(())
    } else {
        Err(Unfit::OutOfRange)
    }
}
