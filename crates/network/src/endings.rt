// What an ended network tells.
ghost use Rattle.std.specs.Prelude.{◌≡◌};
ghost use Rattle.machine.specs.Closing.{totals as totals-in};
ghost use Rattle.network.specs.Networks.{closing_of};

use crate::Ended;
use closing::totals;
use machine::{Fault, Totals};

// The closing line: the end with the orders by state, or the fault that ended the run before. It is no Result: a fault is as
// good a last line of a trace as an end.
#[derive(Clone, Copy, PartialEq, Eq, Debug)]
pub enum Closing {
    End { at: u32, totals: Totals },
    Fault { fault: Fault },
}

impl<'a> Ended<'a> {
    // The declared orders by state.
    pub fn totals(&self) -> Totals
        ensures { result ≡ totals-in self.now.net.now }
    {
        totals(&*self.net)
    }

    pub fn closing(&self) -> Closing
        ensures { result ≡ closing_of self.now.fault self.now.end self.now.net.now }
    {
        match self.fault {
            Some(fault) => Closing::Fault { fault },
            None => Closing::End {
                at: self.end,
                totals: self.totals(),
            },
        }
    }
}
