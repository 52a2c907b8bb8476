// A network that takes forms.
ghost use Rattle.std.specs.Prelude.{◌≡◌, None};
ghost use Rattle.stores.specs.declared.refusals.Unfit.TheVariants.{NotFresh};
ghost use Rattle.stores.specs.Refusals.{Tests};
ghost use Rattle.machine.specs.Network.{cleared};
ghost use Rattle.machine.specs.Machine.{bounds_of, start_machine};
ghost use Rattle.outcomes.specs.Simulation.{machine_of};
ghost use Rattle.simulations.specs.Conditions.{Fit};
ghost use Rattle.simulations.specs.Drafts.{nothing};
ghost use Rattle.network.specs.Networks.{drafted, Unused};

use crate::Draft;
use elements::{Event, LineEntry};
use machine::{Declared, Network, Order, Station};
use stores::{Agenda, Unfit};

// No station and no order is declared.
fn clear(net: &mut Network)
    ensures { net.new ≡ cleared }
{
    net.stations = [Station::default(); 32];
    net.orders = [Order::default(); 1024];
    net.declared = Declared::default();
}

impl<'a> Draft<'a> {
    // Whether a draft can be made over these stores: neither has issued a stamp.
    pub fn fits<E: Agenda<Item = Event>, O: Agenda<Item = LineEntry>>(
        events: &E,
        orders: &O,
    ) -> Result<(), Unfit>
        requires sound { (E.Store.sound events.now) × (O.Store.sound orders.now) }
        ensures test { Tests result NotFresh (Unused (E.Store.meaning events.now) (O.Store.meaning orders.now)) }
    {
        if events.issued() != 0 || orders.issued() != 0 {
            return Err(Unfit::NotFresh);
        }
        Ok(())
    }

    // A draft over a network, which is cleared, and over unused stores: the machine at its start.
    pub fn make<E: Agenda<Item = Event>, O: Agenda<Item = LineEntry>>(
        net: &'a mut Network,
        events: &E,
        orders: &O,
    ) -> Draft<'a>
        requires sound { (E.Store.sound events.now) × (O.Store.sound orders.now) }
        requires unused { Unused (E.Store.meaning events.now) (O.Store.meaning orders.now) }
        ensures fit { Fit (drafted result (E.Store.meaning events.now) (O.Store.meaning orders.now) None) }
        ensures start { machine_of nothing (drafted result (E.Store.meaning events.now) (O.Store.meaning orders.now) None) ≡ start_machine (bounds_of (E.Store.meaning events.now).fixed) (bounds_of (O.Store.meaning orders.now).fixed) None }
    {
        clear(net);
        Draft { net }
    }
}
