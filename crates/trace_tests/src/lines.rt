// Lines as their bytes, at the edges of their numbers and of the memory that is lent.
use machine::{Fault, FormRefusal, Record, RecordKind, ScriptRefusal, StoreName, Totals};
use std::test::Fail;
use store_checks::check;
use stores::Refusal;
use trace::{LINE_BYTES, Line, write_line};

// Writes the line over bytes of 7, of which four are lent beyond the least, and looks at all of them.
fn check_line(line: Line, expected: &[u8]) -> Result<(), Fail> {
    let mut buffer = [7; 100];
    let length = write_line(&line, &mut buffer)?;
    check(&buffer[..length] == expected)?;
    check(buffer[length..].iter().all(|byte| *byte == 7))
}

fn check_record(at: u32, kind: RecordKind, expected: &[u8]) -> Result<(), Fail> {
    check_line(Line::from(Record { at, kind }), expected)
}

// What an end line tells, with none pending or stranded.
fn ended(waiting: u16, serving: u16, done: u16, away: u16, withdrawn: u16) -> Totals {
    Totals {
        waiting,
        serving,
        done,
        away,
        withdrawn,
        ..Totals::default()
    }
}

// The records of the worked example, each with its line.
const EXAMPLE: [(u32, RecordKind, &[u8]); 12] = [
    (
        0,
        RecordKind::Start {
            order: 0,
            station: 0,
        },
        b"(at 0 (start 0 0))\n",
    ),
    (
        1,
        RecordKind::Wait {
            order: 1,
            station: 0,
        },
        b"(at 1 (wait 1 0))\n",
    ),
    (
        1,
        RecordKind::Away {
            order: 2,
            station: 0,
        },
        b"(at 1 (away 2 0))\n",
    ),
    (
        2,
        RecordKind::Withdrawn { order: 1 },
        b"(at 2 (withdrawn 1))\n",
    ),
    (
        3,
        RecordKind::Wait {
            order: 3,
            station: 0,
        },
        b"(at 3 (wait 3 0))\n",
    ),
    (
        4,
        RecordKind::Close {
            station: 0,
            into: 1,
            moved: 1,
        },
        b"(at 4 (close 0 1 1))\n",
    ),
    (
        4,
        RecordKind::Start {
            order: 3,
            station: 1,
        },
        b"(at 4 (start 3 1))\n",
    ),
    (
        5,
        RecordKind::Finish {
            order: 0,
            station: 0,
        },
        b"(at 5 (finish 0 0))\n",
    ),
    (
        5,
        RecordKind::Wait {
            order: 0,
            station: 1,
        },
        b"(at 5 (wait 0 1))\n",
    ),
    (
        7,
        RecordKind::Finish {
            order: 3,
            station: 1,
        },
        b"(at 7 (finish 3 1))\n",
    ),
    (
        7,
        RecordKind::Start {
            order: 0,
            station: 1,
        },
        b"(at 7 (start 0 1))\n",
    ),
    (7, RecordKind::Done { order: 3 }, b"(at 7 (done 3))\n"),
];

#[test]
fn records_of_the_worked_example(rt: HostRuntime) -> Result<(), Fail> {
    for (at, kind, expected) in EXAMPLE {
        // over exactly the bytes that have to be lent, and so not by `check_record`
        let mut buffer = [0; LINE_BYTES];
        let line = Line::from(Record { at, kind });
        let length = write_line(&line, &mut buffer)?;
        assert_eq!(rt; &buffer[..length], expected);
    }
    Ok(())
}

#[test]
fn end_of_the_worked_example() -> Result<(), Fail> {
    check_line(
        Line::End {
            at: 9,
            totals: ended(0, 1, 1, 1, 1),
        },
        b"(end 9 (done 1) (away 1) (withdrawn 1) (inside 1))\n",
    )
}

#[test]
fn largest_orders() -> Result<(), Fail> {
    let order = u16::MAX;
    let station = u8::MAX;
    for (kind, expected) in [
        (
            RecordKind::Start { order, station },
            b"(at 4294967295 (start 65535 255))\n".as_slice(),
        ),
        (
            RecordKind::Wait { order, station },
            b"(at 4294967295 (wait 65535 255))\n",
        ),
        (
            RecordKind::Away { order, station },
            b"(at 4294967295 (away 65535 255))\n",
        ),
        (
            RecordKind::Finish { order, station },
            b"(at 4294967295 (finish 65535 255))\n",
        ),
    ] {
        check_record(u32::MAX, kind, expected)?;
    }
    Ok(())
}

#[test]
fn largest_single_orders() -> Result<(), Fail> {
    let order = u16::MAX;
    for (kind, expected) in [
        (
            RecordKind::Withdrawn { order },
            b"(at 4294967295 (withdrawn 65535))\n".as_slice(),
        ),
        (
            RecordKind::Missed { order },
            b"(at 4294967295 (missed 65535))\n",
        ),
        (
            RecordKind::Done { order },
            b"(at 4294967295 (done 65535))\n",
        ),
    ] {
        check_record(u32::MAX, kind, expected)?;
    }
    Ok(())
}

#[test]
fn largest_stations() -> Result<(), Fail> {
    check_record(
        u32::MAX,
        RecordKind::Close {
            station: 254,
            into: 255,
            moved: u16::MAX,
        },
        b"(at 4294967295 (close 254 255 65535))\n",
    )?;
    check_record(
        1_000_000_000,
        RecordKind::Kept {
            station: 31,
            into: 10,
        },
        b"(at 1000000000 (kept 31 10))\n",
    )
}

#[test]
fn largest_totals() -> Result<(), Fail> {
    check_line(
        Line::End {
            at: u32::MAX,
            totals: ended(u16::MAX, u16::MAX, u16::MAX, 65534, 10000),
        },
        b"(end 4294967295 (done 65535) (away 65534) (withdrawn 10000) (inside 131070))\n",
    )
}

#[test]
fn faults() -> Result<(), Fail> {
    check_line(
        Line::from(Fault {
            refusal: Refusal::NoStamp,
            store: StoreName::Events,
            instant: 7,
        }),
        b"(fault 7 (cause 13) (store events) (layer 0))\n",
    )?;
    check_line(
        Line::from(Fault {
            refusal: Refusal::AtLimit { height: 255 },
            store: StoreName::Orders,
            instant: u32::MAX,
        }),
        b"(fault 4294967295 (cause 11) (store orders) (layer 255))\n",
    )
}

#[test]
fn refused_scripts() -> Result<(), Fail> {
    check_line(
        Line::Refused {
            refusal: ScriptRefusal::TooLong,
            line: 0,
        },
        b"(refused 3 (line 0))\n",
    )?;
    check_line(
        Line::Refused {
            refusal: ScriptRefusal::from(FormRefusal::OutOfPlace),
            line: 65537,
        },
        b"(refused 6 (line 65537))\n",
    )?;
    check_line(
        Line::Refused {
            refusal: ScriptRefusal::from(FormRefusal::from(Refusal::NoCell)),
            line: 8,
        },
        b"(refused 12 (line 8) (layer 0))\n",
    )
}

#[test]
fn too_few_bytes(rt: HostRuntime) {
    let mut buffer = [7; 95];
    let line = Line::Refused {
        refusal: ScriptRefusal::Malformed,
        line: 1,
    };
    let refused = write_line(&line, &mut buffer).map_err(|refusal| refusal.number());
    assert_eq!(rt; refused, Err(8), "95 bytes are too few");
    assert!(rt; buffer.iter().all(|byte| *byte == 7));
}

#[test]
fn just_enough_bytes(rt: HostRuntime) {
    let mut buffer = [7; 96];
    let line = Line::Refused {
        refusal: ScriptRefusal::Malformed,
        line: 1,
    };
    assert!(rt; write_line(&line, &mut buffer).is_ok());
    assert_eq!(rt; &buffer[..21], b"(refused 4 (line 1))\n".as_slice());
}
