// Free answer one: definitions and their laws, in specs/ and proofs/; the code is in `log10`. A crate has at least one function.
#![tactic(auto)]

pub fn unit() {}
