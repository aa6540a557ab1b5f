// Free answer three: definitions and their laws, in specs/ and proofs/; the code is in `kelvin`. A crate has at least one function.
#![tactic(auto)]

pub fn unit() {}
