// Pressure of an energy and a density: what its answer holds and what is claimed of it, in specs/ and proofs/; the code is in
// `pressure`. A crate has at least one function.
#![tactic(auto)]

pub fn unit() {}
