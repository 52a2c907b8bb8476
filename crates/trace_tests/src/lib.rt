// Tests of the lines of a trace, and of the totals that the last one tells.
#![tactic(auto)]

#[cfg(test)]
mod lines;
#[cfg(test)]
mod totals;
