// Events of the simulation, ordered by time alone.
ghost use Rattle.elements.specs.Elements.{event_le};
ghost use Rattle.std.proofs.Common.{rules};

use crate::order::Ordered;

#[derive(Clone, Copy, PartialEq, Eq, Debug)]
pub enum EventKind {
    Arrive { order: u16, station: u8 },
    Finish { order: u16, station: u8 },
    Withdraw { order: u16 },
    Close { station: u8, into: u8 },
}

#[derive(Clone, Copy, PartialEq, Eq, Debug)]
pub struct Event {
    // in ticks
    pub time: u32,
    pub kind: EventKind,
}

impl Ordered for Event {
    ghost le = { event_le };

    ghost laws = { Prim.search rules };

    fn no_later(&self, other: &Event) -> bool {
        self.time <= other.time
    }
}
