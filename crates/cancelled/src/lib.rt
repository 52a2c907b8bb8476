// What a heap means when some of its entries are cancelled: definitions, theorems about them for the layer that cancels
// lazily, and examples that the checker computes on the definitions.
#![tactic(auto)]

ghost use Rattle.cancelled.specs.Examples.{BehindStays, FrontLeaves};

// With two cells and two entries in one queue, the one behind is cancelled: held is 1, and a put is refused with 12.
pub fn cancelled_behind_stays()
    ensures { BehindStays }
{}

// The front is cancelled instead: held is 0, and a put is accepted.
pub fn cancelled_front_leaves()
    ensures { FrontLeaves }
{}
