// Reads a waiting line from standard input, an order to a line, and prints the orders as a bench takes them.
#![tactic(auto)]

ghost use Rattle.std.specs.Prelude.{IfOk, string_bytes};
ghost use Rattle.service_reports.specs.Reports.{Printed};

use service_reports::report;
use std::alloc::{AllocError, Global};
use stores::Sizes;
use table::make;
use waiting_line_runs::run;

// What is printed for the text, by a table.
fn printed(text: &[u8], heap: Global) -> Result<String, AllocError>
    ensures { IfOk result (λ s. Printed 4096 32768 text.now (string_bytes s)) }
{
    let sizes = Sizes::LARGEST;
    let mut cells = vec![in heap; None; usize::from(sizes.cells)]?;
    let mut line = make(&mut cells, sizes);
    report(&mut line, text, heap)
}

fn main(rt: HostRuntime) -> anyhow::Result<()> {
    run(&rt, printed)
}

#[cfg(test)]
mod tests;
