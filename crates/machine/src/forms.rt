// The five forms of a script, and why a form or a line is refused.
ghost use Rattle.std.specs.Prelude.{◌≡◌};
ghost use Rattle.machine.specs.declared.forms.FormRefusal.TheVariants.{Store};
ghost use Rattle.machine.specs.declared.forms.ScriptRefusal.TheVariants.{Form as form-refused};
ghost use Rattle.machine.specs.Forms.{in_range, form_number};
ghost use Rattle.machine.specs.Script.{script_number, script_layer};

use stores::Refusal;

const LAST_STATION: u32 = 31;

const MOST_BENCHES: u32 = 8;

const LONGEST_SERVICE: u32 = 1_000_000;

const LONGEST_LINE: u32 = 4096;

const LAST_ORDER: u32 = 1023;

const LEAST_URGENT: u32 = 9;

const LAST_TICK: u32 = 1_000_000_000;

// Numbers as the script has them, which may be out of their ranges. A station without a next one is a last station.
#[derive(Clone, Copy, PartialEq, Eq, Debug)]
pub enum Form {
    Station {
        station: u32,
        benches: u32,
        takes: u32,
        holds: u32,
        next: Option<u32>,
    },
    Order {
        order: u32,
        at: u32,
        urgency: u32,
        due: u32,
        start: u32,
    },
    Withdraw {
        order: u32,
        at: u32,
    },
    Close {
        station: u32,
        at: u32,
        into: u32,
    },
    End {
        at: u32,
    },
}

impl Form {
    // Whether every number of the form is in its range.
    pub fn in_range(&self) -> bool
        ensures { result ≡ in_range self.now }
    {
        match *self {
            Form::Station {
                station,
                benches,
                takes,
                holds,
                next,
            } => {
                station <= LAST_STATION
                    && (1..=MOST_BENCHES).contains(&benches)
                    && (1..=LONGEST_SERVICE).contains(&takes)
                    && holds <= LONGEST_LINE
                    && next.is_none_or(|k| k <= LAST_STATION)
            }
            Form::Order {
                order,
                at,
                urgency,
                due,
                start,
            } => {
                order <= LAST_ORDER
                    && at <= LAST_TICK
                    && urgency <= LEAST_URGENT
                    && due <= LAST_TICK
                    && start <= LAST_STATION
            }
            Form::Withdraw { order, at } => order <= LAST_ORDER && at <= LAST_TICK,
            Form::Close { station, at, into } => {
                station <= LAST_STATION && at <= LAST_TICK && into <= LAST_STATION
            }
            Form::End { at } => at <= LAST_TICK,
        }
    }
}

// Why a form is refused: a number is out of its range, the form is out of its place, it names a station that was not
// declared, or the event store refuses its event.
#[derive(Clone, Copy, PartialEq, Eq, Debug)]
pub enum FormRefusal {
    OutOfRange,
    OutOfPlace,
    Undeclared,
    Store { refusal: Refusal },
}

// By a match, since a variant with a field cannot be cast to its number.
impl FormRefusal {
    pub fn number(&self) -> u8
        ensures { result ≡ form_number self.now }
    {
        match self {
            FormRefusal::OutOfRange => 5,
            FormRefusal::OutOfPlace => 6,
            FormRefusal::Undeclared => 7,
            FormRefusal::Store { refusal } => refusal.number(),
        }
    }
}

impl From<Refusal> for FormRefusal {
    ghost from_gives = { λ f r. r ≡ Store f };

    fn from(refusal: Refusal) -> FormRefusal {
        FormRefusal::Store { refusal }
    }
}

// Why a script is refused at a line: it or the line is too long, the line is none of the five forms, or its form is
// refused.
#[derive(Clone, Copy, PartialEq, Eq, Debug)]
pub enum ScriptRefusal {
    TooLong,
    Malformed,
    Form { refusal: FormRefusal },
}

// By a match, since a variant with a field cannot be cast to its number.
impl ScriptRefusal {
    pub fn number(&self) -> u8
        ensures { result ≡ script_number self.now }
    {
        match self {
            ScriptRefusal::TooLong => 3,
            ScriptRefusal::Malformed => 4,
            ScriptRefusal::Form { refusal } => refusal.number(),
        }
    }

    // The height that is told with the refusal of a store, and with no other.
    pub fn layer(&self) -> Option<u8>
        ensures { result ≡ script_layer self.now }
    {
        match self {
            ScriptRefusal::Form {
                refusal: FormRefusal::Store { refusal },
            } => Some(refusal.height()),
            _ => None,
        }
    }
}

impl From<FormRefusal> for ScriptRefusal {
    ghost from_gives = { λ f r. r ≡ form-refused f };

    fn from(refusal: FormRefusal) -> ScriptRefusal {
        ScriptRefusal::Form { refusal }
    }
}
