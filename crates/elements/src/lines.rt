// Orders that wait in a station's line, ordered by urgency and then by due tick.
ghost use Rattle.elements.specs.Elements.{line_le};
ghost use Rattle.std.proofs.Common.{rules};

use crate::order::Ordered;

#[derive(Clone, Copy, Default, PartialEq, Eq, Debug)]
pub struct LineEntry {
    pub order: u16,
    // 0 is the most urgent
    pub urgency: u8,
    pub due: u32,
}

impl Ordered for LineEntry {
    ghost le = { line_le };

    ghost laws = { Prim.search rules };

    fn no_later(&self, other: &LineEntry) -> bool {
        (self.urgency, self.due) <= (other.urgency, other.due)
    }
}
