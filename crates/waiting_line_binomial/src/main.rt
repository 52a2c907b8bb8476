// Reads a waiting line from standard input, an order to a line, and prints the orders as a bench takes them, by a store of
// binomial heaps.
#![tactic(auto)]

use binomial::Link;
use heap_reports::printed;
use waiting_line_runs::run;

fn main(rt: HostRuntime) -> anyhow::Result<()> {
    run(&rt, printed::<Link>)
}
