// When a form is refused before it reaches the event store.
ghost use Rattle.std.specs.Prelude.{◌≡◌, take};
ghost use Rattle.std.specs.List.{list_all};
ghost use Rattle.machine.specs.declared.networks.Station.{Station};
ghost use Rattle.machine.specs.Forms.{next_declared, names_declared};
ghost use Rattle.network.specs.Checks.{refusal_in, placed, at_once};

use machine::{Form, FormRefusal, Network};

// Whether the form is in its place in a draft whose event store has issued so many stamps.
fn in_place(net: &Network, issued: u16, form: Form) -> bool
    ensures { result ≡ placed form net.now issued }
{
    match form {
        Form::Station { station, .. } => issued == 0 && station == u32::from(net.declared.stations),
        Form::Order { order, .. } => {
            0 < net.declared.stations && order == u32::from(net.declared.orders)
        }
        Form::Withdraw { order, .. } => order < u32::from(net.declared.orders),
        Form::Close { .. } | Form::End { .. } => 0 < net.declared.stations,
    }
}

// Whether the next station, if there is one, was declared.
fn next_declared(net: &Network, next: Option<u8>) -> bool
    ensures { result ≡ next_declared net.now next }
{
    next.is_none_or(|k| k < net.declared.stations)
}

// Whether every next station of the declared stations was declared.
fn all_next_declared(net: &Network) -> bool
    ensures { result ≡ list_all (λ (s : Station). next_declared net.now s.next) (take net.now.declared.stations net.now.stations) }
{
    let declared = usize::from(net.declared.stations);
    net.stations
        .iter()
        .take(declared)
        .all(|s| next_declared(net, s.next))
}

// Whether every station that the form names was declared; a next station is looked at when the end comes.
fn names_declared(net: &Network, form: Form) -> bool
    ensures { result ≡ names_declared form net.now }
{
    let declared = u32::from(net.declared.stations);
    match form {
        Form::Station { .. } | Form::Withdraw { .. } => true,
        Form::Order { start, .. } => start < declared,
        Form::Close { station, into, .. } => station < declared && into < declared,
        Form::End { .. } => all_next_declared(net),
    }
}

// Whether the form may reach the event store, or why it is refused before: the lowest number that applies.
pub(crate) fn check(net: &Network, issued: u16, form: Form) -> Result<(), FormRefusal>
    ensures { refusal_in result ≡ at_once form net.now issued }
{
    if !form.in_range() {
        return Err(FormRefusal::OutOfRange);
    }
    if !in_place(net, issued, form) {
        return Err(FormRefusal::OutOfPlace);
    }
    if !names_declared(net, form) {
        return Err(FormRefusal::Undeclared);
    }
    Ok(())
}
