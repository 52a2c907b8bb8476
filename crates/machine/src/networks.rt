// The plain data of a network: its stations and its orders.
ghost use Rattle.std.specs.Prelude.{◌≡◌, ◌-◌};
ghost use Rattle.machine.specs.Network.{with_busy};

#[derive(Clone, Copy, Default, PartialEq, Eq, Debug)]
pub struct Station {
    pub benches: u8,
    // how many of the benches are at work
    pub busy: u8,
    // ticks that a service lasts
    pub takes: u32,
    // how many orders may wait in its line
    pub holds: u16,
    // where finished orders go; none at a last station
    pub next: Option<u8>,
    // the station that it closed into
    pub into: Option<u8>,
}

impl Station {
    // One bench becomes free.
    pub fn free_bench(&mut self)
        ensures { self.new ≡ with_busy self.old (self.old.busy - 1) }
    {
        self.busy = self.busy.saturating_sub(1);
    }
}

// Stamps are those of the order store for a waiting order, and of the event store for the finish of one in service.
#[derive(Clone, Copy, Default, PartialEq, Eq, Debug)]
pub enum OrderState {
    #[default]
    NotYet,
    Waiting { stamp: u16 },
    InService { station: u8, stamp: u16 },
    Done,
    Away,
    Withdrawn,
    Stranded,
}

#[derive(Clone, Copy, Default, PartialEq, Eq, Debug)]
pub struct Order {
    // 0 is the most urgent
    pub urgency: u8,
    pub due: u32,
    // the station that it arrives at
    pub start: u8,
    pub state: OrderState,
}

// How many stations and orders were declared: the first ones of their arrays. They stand beside arrays and are no vectors,
// since a network is plain memory of a fixed size that is lent to the simulator.
#[derive(Clone, Copy, Default, PartialEq, Eq, Debug)]
pub struct Declared {
    pub stations: u8,
    pub orders: u16,
}

#[derive(Drop)]
pub struct Network {
    pub stations: [Station; 32],
    pub orders: [Order; 1024],
    pub declared: Declared,
}
