// An order in hand, and the five ways to spend it.
ghost use Rattle.std.specs.Prelude.{◌≡◌, ◌<◌, true, false, length};
ghost use Rattle.machine.specs.declared.records.RecordKind.TheVariants.{Start, Wait, Away, Done};
ghost use Rattle.machine.specs.Network.{station, marked};
ghost use Rattle.simulations.specs.Conditions.{IsOrder};
ghost use Rattle.simulations.specs.Writes.{with_network, one_more, noted, failed, started, queued, sent_away, completed, stranded};
ghost use Rattle.workshop.specs.Workshop.{control, left};

use crate::{StationNumber, Workshop};
use elements::{Event, LineEntry};
use machine::{Fault, OrderState, Record, RecordKind, StoreName};
use stores::{Agenda, Refusal};

// An order that arrived, finished or was taken from a line. It may be let go only once it is spent: started, put in a line,
// away, done or stranded. The flag is there so that the prover refuses code that lets an order fall, as the must-fail edit
// `hand_falls` shows. A linear value with no Drop is refused by the compiler there, which shows nothing of the prover.
pub(crate) struct InHand {
    pub(crate) order: u16,
    spent: bool,
    ghost known: { IsOrder order },
}

impl Drop for InHand {
    fn drop(self)
        requires { self.spent ≡ true }
    {
        let InHand { order: _, spent: _ } = self;
    }
}

impl InHand {
    pub(crate) fn new(order: u16) -> InHand
        requires { IsOrder order }
        ensures order { result.order ≡ order }
        ensures unspent { result.spent ≡ false }
    {
        InHand {
            order,
            spent: false,
        }
    }

    fn spend(mut self) -> u16
        ensures { result ≡ self.order }
    {
        self.spent = true;
        self.order
    }
}

impl<E: Agenda<Item = Event>, O: Agenda<Item = LineEntry>> Workshop<'_, E, O> {
    // A record of this instant, in the first place that is not used.
    pub(crate) fn note(&mut self, kind: RecordKind)
        requires place { self.old.used < length self.old.places.now }
        ensures { self.new ≡ left self.old (one_more (control self.old)) (noted kind (control self.old) self.old.places.now) }
    {
        self.places[self.used] = Record {
            at: self.run.instant,
            kind,
        };
        self.used += 1;
    }

    // The order in hand is put down in that state; the answer is its number.
    fn put_down(&mut self, hand: InHand, state: OrderState) -> u16
        ensures answer { result ≡ hand.order }
        ensures left { self.new ≡ left self.old (with_network (control self.old) (marked hand.order state self.old.net.now)) self.old.places.now }
    {
        let order = hand.spend();
        self.net.orders[order as usize].state = state;
        order
    }

    // The order in hand is in service at station k.
    pub(crate) fn begin(&mut self, hand: InHand, k: StationNumber, stamp: u16)
        requires range { (self.old.used < length self.old.places.now) × ((station self.old.net.now k.number).busy < 8) }
        ensures { self.new ≡ left self.old (started hand.order k.number stamp (control self.old)) (noted (Start hand.order k.number) (control self.old) self.old.places.now) }
    {
        let order = self.put_down(
            hand,
            OrderState::InService {
                station: k.number,
                stamp,
            },
        );
        self.net.stations[k.number as usize].busy += 1;
        self.note(RecordKind::Start {
            order,
            station: k.number,
        });
    }

    // A function for each way to spend it, and none of any state and record: the contract of each is one word of the machine's
    // writes (`queued`, `sent_away`, `completed`).

    // The order in hand waits in line k.
    pub(crate) fn line_up(&mut self, hand: InHand, k: StationNumber, stamp: u16)
        requires place { self.old.used < length self.old.places.now }
        ensures { self.new ≡ left self.old (queued hand.order stamp (control self.old)) (noted (Wait hand.order k.number) (control self.old) self.old.places.now) }
    {
        let order = self.put_down(hand, OrderState::Waiting { stamp });
        self.note(RecordKind::Wait {
            order,
            station: k.number,
        });
    }

    // The order in hand goes away from line k.
    pub(crate) fn send_away(&mut self, hand: InHand, k: StationNumber)
        requires place { self.old.used < length self.old.places.now }
        ensures { self.new ≡ left self.old (sent_away hand.order (control self.old)) (noted (Away hand.order k.number) (control self.old) self.old.places.now) }
    {
        let order = self.put_down(hand, OrderState::Away);
        self.note(RecordKind::Away {
            order,
            station: k.number,
        });
    }

    // The order in hand is done.
    pub(crate) fn complete(&mut self, hand: InHand)
        requires place { self.old.used < length self.old.places.now }
        ensures { self.new ≡ left self.old (completed hand.order (control self.old)) (noted (Done hand.order) (control self.old) self.old.places.now) }
    {
        let order = self.put_down(hand, OrderState::Done);
        self.note(RecordKind::Done { order });
    }

    // The order in hand is stranded.
    pub(crate) fn strand(&mut self, hand: InHand)
        ensures { self.new ≡ left self.old (stranded hand.order (control self.old)) self.old.places.now }
    {
        self.put_down(hand, OrderState::Stranded);
    }

    // A refused put ends the run.
    pub(crate) fn fail(&mut self, refusal: Refusal, store: StoreName)
        ensures { self.new ≡ left self.old (failed refusal store (control self.old)) self.old.places.now }
    {
        self.run.fault = Some(Fault {
            refusal,
            store,
            instant: self.run.instant,
        });
    }
}
