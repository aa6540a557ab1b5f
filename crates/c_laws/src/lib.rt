// What C gets, and the promises over it: allowed answers, demand 3, exact marks, remarks, conversions, adds and walks, in specs/
// and proofs/; the entries are in `airstate`. A crate has at least one function.
#![tactic(auto)]

pub fn unit() {}
