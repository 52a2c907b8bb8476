// Quotas over a table.
use elements::LineEntry;
use piles::quota_over_quota;
use records::Record;
use std::test::Fail;
use store_checks::{Answer, Call, passes};
use stores::Sizes;

fn run(inner: u16, outer: u16, script: &[(Call, Answer)]) -> Result<(), Fail> {
    let mut cells: [Option<Record<LineEntry>>; 4] = [None; 4];
    let sizes = Sizes {
        cells: 4,
        stamps: 8,
    };
    let table = table::make(&mut cells, sizes);
    let mut store = quota_over_quota(table, [inner; 32], [outer; 32])?;
    passes(&mut store, script)
}

#[test]
fn greatest_height_is_told() -> Result<(), Fail> {
    let script = [
        (Call::Put(0, 7, 1), Answer::Number(0)),
        (Call::Put(0, 8, 1), Answer::Refused(11, 1)),
        (Call::Put(1, 8, 1), Answer::Number(1)),
        // a meld passes the limits
        (Call::Meld(0, 1), Answer::Number(1)),
        (Call::Count(0), Answer::Number(2)),
        (Call::Put(0, 9, 1), Answer::Refused(11, 2)),
        (Call::Take(0), Answer::Order(7)),
        (Call::Put(0, 9, 1), Answer::Refused(11, 1)),
        (Call::Put(32, 9, 1), Answer::Refused(9, 0)),
        (Call::Cancel(0), Answer::Refused(14, 0)),
    ];
    run(1, 2, &script)
}

#[test]
fn limit_0_bars_every_put() -> Result<(), Fail> {
    let script = [
        (Call::Put(5, 7, 1), Answer::Refused(11, 2)),
        (Call::Issued, Answer::Number(0)),
    ];
    run(65535, 0, &script)
}
