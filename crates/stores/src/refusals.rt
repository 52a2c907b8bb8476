// Why a store refuses a call, and why it cannot be made.
ghost use Rattle.std.specs.Prelude.{◌≡◌};
ghost use Rattle.stores.specs.Refusals.{number_of, height_of, unfit_number};

// Why a call is refused. A limit and a stamp in no queue are told with the height of the layer that says so.
#[derive(Clone, Copy, PartialEq, Eq, Debug)]
pub enum Refusal {
    QueueNumber,
    SameQueue,
    AtLimit { height: u8 },
    NoCell,
    NoStamp,
    NotQueued { height: u8 },
}

// The numbers are told by methods, and not by `From` or a cast: a variant with a field cannot be cast, and at a call a
// `number()` says which of a refusal's two numbers is meant.
impl Refusal {
    pub fn number(&self) -> u8
        ensures { result ≡ number_of self.now }
    {
        match self {
            Refusal::QueueNumber => 9,
            Refusal::SameQueue => 10,
            Refusal::AtLimit { .. } => 11,
            Refusal::NoCell => 12,
            Refusal::NoStamp => 13,
            Refusal::NotQueued { .. } => 14,
        }
    }

    pub fn height(&self) -> u8
        ensures { result ≡ height_of self.now }
    {
        match self {
            Refusal::AtLimit { height } | Refusal::NotQueued { height } => *height,
            Refusal::QueueNumber | Refusal::SameQueue | Refusal::NoCell | Refusal::NoStamp => 0,
        }
    }
}

// Why a store or a layer cannot be made: a size, a length or a height is out of its range, or the store below has
// issued stamps already.
#[derive(Clone, Copy, PartialEq, Eq, Debug)]
pub enum Unfit {
    OutOfRange = 1,
    NotFresh = 2,
}

impl Unfit {
    pub fn number(&self) -> u8
        ensures { result ≡ unfit_number self.now }
    {
        *self as u8
    }
}
