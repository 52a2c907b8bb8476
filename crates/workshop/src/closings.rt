// Closings.
ghost use Rattle.std.specs.Prelude.{◌≡◌, ℕ, ◌+◌, ◌<◌, ◌≤◌, length};
ghost use Rattle.machine.specs.declared.records.RecordKind.TheVariants.{Close};
ghost use Rattle.machine.specs.Step.{stays_open, fill, close};
ghost use Rattle.outcomes.specs.Simulation.{Simulation};
ghost use Rattle.simulations.specs.Calls.{Call};
ghost use Rattle.simulations.specs.Writes.{noted, shut};
ghost use Rattle.workshop.specs.Workshop.{control, simulated, Sound, Ready, left, Same, Works};

use crate::{StationNumber, Workshop};
use elements::{Event, LineEntry};
use machine::{Network, RecordKind};
use stores::Agenda;

// Whether a closing of station k into station j changes nothing: they are one, or either is closed.
fn stays_open(net: &Network, k: StationNumber, j: StationNumber) -> bool
    ensures answer { result ≡ stays_open k.number j.number net.now }
{
    k.number == j.number
        || net.stations[k.number as usize].into.is_some()
        || net.stations[j.number as usize].into.is_some()
}

impl<E: Agenda<Item = Event>, O: Agenda<Item = LineEntry>> Workshop<'_, E, O> {
    // Station k is closed into station j.
    fn shut(&mut self, k: StationNumber, j: StationNumber, moved: u16)
        requires place { self.old.used < length self.old.places.now }
        ensures { self.new ≡ left self.old (shut k.number j.number (control self.old)) (noted (Close k.number j.number moved) (control self.old) self.old.places.now) }
    {
        self.net.stations[k.number as usize].into = Some(j.number);
        self.note(RecordKind::Close {
            station: k.number,
            into: j.number,
            moved,
        });
    }

    // One more turn of filling the benches of station j; after a fault there is none.
    fn fill_turn(&mut self, j: StationNumber)
        requires place { self.old.used < length self.old.places.now }
        requires ready { Ready E.Store.sound O.Store.sound E.Store.meaning O.Store.meaning self.old }
        ensures sound { Sound E.Store.sound O.Store.sound self.new }
        ensures turn { (n : ℕ) (a : Simulation) → Call (fill n j.number) n a (simulated E.Store.meaning O.Store.meaning self.old) → Call (fill (n + 1) j.number) (n + 1) a (simulated E.Store.meaning O.Store.meaning self.new) }
        ensures same { Same self.old self.new }
    {
        if self.run.fault.is_none() {
            let station = self.net.stations[j.number as usize];
            if station.busy < station.benches {
                self.start_front(j);
            }
        }
    }

    // While station j has a free bench and its line a front, that starts. A station has at most 8 benches. The machine's own
    // definition makes 8 turns; a condition would make fewer, and need a lemma that the rest do nothing.
    fn fill(&mut self, j: StationNumber)
        requires places { self.old.used + 8 ≤ length self.old.places.now }
        requires ready { Ready E.Store.sound O.Store.sound E.Store.meaning O.Store.meaning self.old }
        ensures { Works E.Store.sound O.Store.sound E.Store.meaning O.Store.meaning (fill 8 j.number) 8 self.old self.new }
    {
        'fill: for _turn in 0..8u8 {
            self.fill_turn(j);
        }
    }

    // Station k closes into station j: its line melds into the other's, whose free benches are filled.
    pub(crate) fn close(&mut self, k: StationNumber, j: StationNumber)
        requires places { self.old.used + 9 ≤ length self.old.places.now }
        requires ready { Ready E.Store.sound O.Store.sound E.Store.meaning O.Store.meaning self.old }
        ensures { Works E.Store.sound O.Store.sound E.Store.meaning O.Store.meaning (close k.number j.number) 9 self.old self.new }
    {
        if stays_open(self.net, k, j) {
            self.note(RecordKind::Kept {
                station: k.number,
                into: j.number,
            });
        } else if let Ok(moved) = self.orders.meld(j.number, k.number) {
            self.shut(k, j, moved);
            self.fill(j);
        }
    }
}
