// Theorems about every run of the machine. The functions compute nothing: each stands for the theorem in its contract.
ghost use Rattle.machine_laws.specs.History.{FrontFirst, FinishedBetween};
ghost use Rattle.machine_laws.specs.Records.{FewRecords};
ghost use Rattle.machine_laws.specs.Arrivals.{ArrivedAccounted};
ghost use Rattle.machine_laws.specs.Closings.{OpenReached};
ghost use Rattle.machine_laws.specs.Stops.{StoppedAlike};
ghost use Rattle.machine_laws.specs.Times.{TimesRise, RunsEnd};
ghost use Rattle.machine_laws.specs.Whereabouts.{OrdersLocated};

// A step makes at most 9 records, after those that there are.
pub fn steps_make_few_records()
    ensures { FewRecords }
{}

// Stopped at a put, the machine is the unstopped one up to that put, in one call and in a list of calls.
pub fn stopped_is_unstopped_before()
    ensures { StoppedAlike }
{}

// Closings never form a ring: whatever list of calls was made, following them comes to an open station.
pub fn closings_lead_to_open()
    ensures { OpenReached }
{}

// The times of the records never fall.
pub fn times_never_fall()
    ensures { TimesRise }
{}

// Every run comes to its end within as many steps as the event store gives out stamps.
pub fn runs_end()
    ensures { RunsEnd }
{}

// After every call: arrived = done + away + withdrawn + inside + stranded.
pub fn arrived_adds_up()
    ensures { ArrivedAccounted }
{}

// Every declared order is where its state says, so that after a fault or a stop just the orders then in hand are stranded.
pub fn orders_are_located()
    ensures { OrdersLocated }
{}

// Whoever is started from a line is preceded by nobody who waits in it.
pub fn front_goes_first()
    ensures { FrontFirst }
{}

// Between two starts of an order it finished.
pub fn starts_are_finished()
    ensures { FinishedBetween }
{}
