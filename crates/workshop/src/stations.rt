// Which of a network's stations it is.
ghost use Rattle.std.specs.Prelude.{◌≡◌};
ghost use Rattle.simulations.specs.Conditions.{IsStation};

// A number that a station has. The machine's plain data hold the number alone.
#[derive(Clone, Copy)]
pub(crate) struct StationNumber {
    pub(crate) number: u8,
    ghost known: { IsStation number },
}

impl StationNumber {
    pub(crate) fn new(number: u8) -> StationNumber
        requires { IsStation number }
        ensures { result.number ≡ number }
    {
        StationNumber { number }
    }
}
