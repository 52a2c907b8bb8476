// The declared orders by state.
use closing::totals;
use machine::{Declared, Network, Order, OrderState, Station, Totals};

// Order 0 is done, 1 and 2 wait, 3 is in service, 4 is away, 5 withdrawn, 6 stranded, and all others are not yet there.
fn network(orders: u16) -> Network {
    let station = Station {
        benches: 1,
        takes: 1,
        ..Station::default()
    };
    let mut network = Network {
        stations: [station; 32],
        orders: [Order::default(); 1024],
        declared: Declared {
            stations: 1,
            orders,
        },
    };
    network.orders[0].state = OrderState::Done;
    network.orders[1].state = OrderState::Waiting { stamp: 1 };
    network.orders[2].state = OrderState::Waiting { stamp: 2 };
    network.orders[3].state = OrderState::InService {
        station: 0,
        stamp: 9,
    };
    network.orders[4].state = OrderState::Away;
    network.orders[5].state = OrderState::Withdrawn;
    network.orders[6].state = OrderState::Stranded;
    network
}

#[test]
fn declared_orders_are_counted(rt: HostRuntime) {
    assert_eq!(rt;
        totals(&network(8)),
        Totals {
            pending: 1,
            waiting: 2,
            serving: 1,
            done: 1,
            away: 1,
            withdrawn: 1,
            stranded: 1,
        }
    );
}

#[test]
fn others_are_not(rt: HostRuntime) {
    assert_eq!(rt;
        totals(&network(2)),
        Totals {
            waiting: 1,
            done: 1,
            ..Totals::default()
        }
    );
}

#[test]
fn more_than_there_are(rt: HostRuntime) {
    assert_eq!(rt;
        totals(&network(65535)),
        Totals {
            pending: 1017,
            waiting: 2,
            serving: 1,
            done: 1,
            away: 1,
            withdrawn: 1,
            stranded: 1,
        }
    );
}
