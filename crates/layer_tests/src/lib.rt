// The layers over the table and over the leftist heap: tests that are run.
#![tactic(auto)]

#[cfg(test)]
mod journals;
#[cfg(test)]
mod lazily;
#[cfg(test)]
mod limits;
