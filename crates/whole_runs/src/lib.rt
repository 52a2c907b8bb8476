// What is claimed of a whole run over two real stores (specs/), and how a run is put together from its calls (proofs/).
// There is nothing to compute.
#![tactic(auto)]
