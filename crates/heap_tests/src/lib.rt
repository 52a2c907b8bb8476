// Tests that every bare heap has to pass, over each of them, and that all stores answer alike.
#![tactic(auto)]

#[cfg(test)]
mod agreement;
#[cfg(test)]
mod calls;
#[cfg(test)]
mod heaps;
#[cfg(test)]
mod trials;
