// What a run tells: records, the fault that ended it, and its totals.
use stores::Refusal;

#[derive(Clone, Copy, PartialEq, Eq, Debug)]
pub enum RecordKind {
    Start { order: u16, station: u8 },
    Wait { order: u16, station: u8 },
    Away { order: u16, station: u8 },
    Withdrawn { order: u16 },
    Missed { order: u16 },
    Finish { order: u16, station: u8 },
    Done { order: u16 },
    Close { station: u8, into: u8, moved: u16 },
    Kept { station: u8, into: u8 },
}

#[derive(Clone, Copy, PartialEq, Eq, Debug)]
pub struct Record {
    // in ticks
    pub at: u32,
    pub kind: RecordKind,
}

#[derive(Clone, Copy, PartialEq, Eq, Debug)]
pub enum StoreName {
    Events,
    Orders,
}

// Why a run ended before its end: the refusal of a put, whose it was, and when.
#[derive(Clone, Copy, PartialEq, Eq, Debug)]
pub struct Fault {
    pub refusal: Refusal,
    pub store: StoreName,
    pub instant: u32,
}

// What a step tells.
#[derive(Clone, Copy, PartialEq, Eq, Debug)]
pub enum Progress {
    Stepped,
    Ended,
    Faulted,
}

// The declared orders by state.
#[derive(Clone, Copy, Default, PartialEq, Eq, Debug)]
pub struct Totals {
    // not yet there
    pub pending: u16,
    pub waiting: u16,
    // in service
    pub serving: u16,
    pub done: u16,
    pub away: u16,
    pub withdrawn: u16,
    pub stranded: u16,
}
