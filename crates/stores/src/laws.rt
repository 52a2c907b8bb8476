// Theorems about the definitions that all stores are held to. The functions compute nothing: each stands for the theorem
// in its contract, over every type of element.
ghost use Rattle.stores.specs.Laws.{StaysSorted, AddsUp, IsJoining, FrontPrecedes};

use elements::Ordered;

pub fn sorted_stays_sorted<T: Ordered>()
    ensures { StaysSorted T.Ordered.le }
{}

pub fn counts_add_up<T: Ordered>()
    ensures { AddsUp T.Ordered.le }
{}

pub fn joined_has_both<T: Ordered>()
    ensures { IsJoining T.Ordered.le }
{}

pub fn front_precedes_all<T: Ordered>()
    ensures { FrontPrecedes T.Ordered.le }
{}
