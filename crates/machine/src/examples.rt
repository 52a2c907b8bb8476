// Examples that the checker computes on the definitions, from the bytes of a script to the bytes of its trace.
ghost use Rattle.machine.specs.Examples.{ExampleRuns, RefusalsTold};

// The worked example, and the same with few event cells or stamps.
pub fn example_runs()
    ensures { ExampleRuns }
{}

// Scripts that are refused, each with its number and line.
pub fn refusals_told()
    ensures { RefusalsTold }
{}
