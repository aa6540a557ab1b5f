// Temperature of a pressure and a density: what its answer holds and what is claimed of it, in specs/ and proofs/; the code is in
// `temperature`. A crate has at least one function.
#![tactic(auto)]

pub fn unit() {}
