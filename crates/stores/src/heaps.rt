// A store that cannot cancel: it reaches only the fronts of its queues.
ghost use Rattle.stores.specs.Promises.{Bare};

use crate::queues::Store;

// A bare heap has no limits, holds nothing back, and its height is 0.
pub trait BareHeap: Store {
    ghost bare: { (s : Self) → Self.sound s → Bare (Self.meaning s) };
}
