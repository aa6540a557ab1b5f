// Which answers can be drawn: a theorem only, and one function, since a crate has one.
#![tactic(auto)]

pub fn unit() {}
