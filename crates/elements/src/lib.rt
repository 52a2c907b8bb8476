// What the stores keep in order: elements, ordered by one question, and entries, which carry a stamp too.
#![tactic(auto)]

mod entries;
mod events;
mod lines;
mod order;

pub use entries::{Entry, entries_are_ordered, precedes, urgency_before_due};
pub use events::{Event, EventKind};
pub use lines::LineEntry;
pub use order::Ordered;

#[cfg(test)]
mod tests {
    use super::*;

    fn waiting(urgency: u8, due: u32, stamp: u16) -> Entry<LineEntry> {
        Entry {
            element: LineEntry {
                order: 0,
                urgency,
                due,
            },
            stamp,
        }
    }

    fn withdrawal(time: u32, stamp: u16) -> Entry<Event> {
        Entry {
            element: Event {
                time,
                kind: EventKind::Withdraw { order: 0 },
            },
            stamp,
        }
    }

    #[test]
    fn orders_by_urgency_then_due_then_stamp(rt: HostRuntime) {
        assert!(rt; precedes(&waiting(0, 90, 1), &waiting(5, 40, 0)));
        assert!(rt; precedes(&waiting(5, 40, 1), &waiting(5, 41, 0)));
        assert!(rt; precedes(&waiting(5, 40, 0), &waiting(5, 40, 1)));
        assert!(rt; !precedes(&waiting(5, 40, 1), &waiting(5, 40, 0)));
    }

    #[test]
    fn events_of_one_time_go_by_stamp(rt: HostRuntime) {
        let close = Event {
            time: 3,
            kind: EventKind::Close {
                station: 0,
                into: 1,
            },
        };
        assert!(rt;
            precedes(
                &withdrawal(3, 0),
                &Entry {
                    element: close,
                    stamp: 1,
                },
            )
        );
        assert!(rt;
            precedes(
                &Entry {
                    element: close,
                    stamp: 1,
                },
                &withdrawal(3, 2),
            )
        );
        assert!(rt; precedes(&withdrawal(2, 9), &withdrawal(3, 0)));
        assert!(rt; !precedes(&withdrawal(3, 0), &withdrawal(3, 0)));
    }
}
