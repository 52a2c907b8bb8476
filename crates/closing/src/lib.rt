// Counts the declared orders of a network by their state.
#![tactic(auto)]

ghost use Rattle.std.specs.Prelude.{◌≡◌, ◌<◌};
ghost use Rattle.machine.specs.Closing.{one_in, totals as totals-in};
ghost use Rattle.closing.specs.Counting.{whole, plus};

use machine::{Network, OrderState, Totals};

// One order more in that state.
fn add(totals: &mut Totals, state: OrderState)
    requires { whole totals.old < 65535 }
    ensures { totals.new ≡ plus totals.old (one_in state) }
{
    match state {
        OrderState::NotYet => totals.pending += 1,
        OrderState::Waiting { .. } => totals.waiting += 1,
        OrderState::InService { .. } => totals.serving += 1,
        OrderState::Done => totals.done += 1,
        OrderState::Away => totals.away += 1,
        OrderState::Withdrawn => totals.withdrawn += 1,
        OrderState::Stranded => totals.stranded += 1,
    }
}

// The declared orders by state.
pub fn totals(network: &Network) -> Totals
    ensures { result ≡ totals-in network.now }
{
    let declared = usize::from(network.declared.orders);
    let mut totals = Totals::default();
    for order in network.orders.iter().take(declared) {
        add(&mut totals, order.state);
    }
    totals
}
