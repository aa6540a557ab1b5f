// Free answer two: definitions and their laws, in specs/ and proofs/; the code is in `weigh`. A crate has at least one function.
#![tactic(auto)]

pub fn unit() {}
