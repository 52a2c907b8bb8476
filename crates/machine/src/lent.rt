// Why lent memory is refused.
ghost use Rattle.std.specs.Prelude.{◌≡◌};
ghost use Rattle.machine.specs.Lent.{short_number};

// Fewer than 9 places for the records of a step, or fewer than 96 bytes for a line of the trace.
#[derive(Clone, Copy, PartialEq, Eq, Debug)]
pub struct TooShort;

impl TooShort {
    pub fn number(&self) -> u8
        ensures { result ≡ short_number }
    {
        8
    }
}
