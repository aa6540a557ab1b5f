// The answer for a state of equilibrium air, and the engine of every property: places, joins, choices, ranges. The properties are in
// `air_temperature`, `air_entropy` and `air_pressure`, the rows of kinds in `state`; the code is in crates above them.
#![tactic(auto)]

use fit::Edge;

// The logarithms that an answer carries, in whole millionths: y and z, and those of a pressure also x.
#[derive(Clone, Copy, Debug, PartialEq, Eq)]
pub struct Logs {
    pub x: Option<i64>,
    pub y: i64,
    pub z: i64,
}

// The fits that an answer carries: none, one, or in a join the lower and the upper edge's.
#[derive(Clone, Copy)]
pub enum Edges {
    Unfitted,
    One(Edge),
    Two(Edge, Edge),
}

// The values at a join's two edges.
#[derive(Clone, Copy, Debug, PartialEq, Eq)]
pub struct Ends {
    pub low: i64,
    pub high: i64,
}

// The answer for a state. A letter says what was asked: T, S or P. The logarithms and the fits stand at one place in both cases that have
// them, behind the shorter fields, so that an answer is handed on in whole words.
#[derive(Clone, Copy)]
pub enum Answer {
    // A refusal's number alone: whoever takes an answer takes any number.
    Refused(u32),
    // A refusal with what it was judged by: 12, 13, 17.
    Judged {
        letter: u8,
        number: u32,
        logs: Logs,
        edges: Edges,
    },
    // A value, in a join with those at its edges.
    Shows {
        letter: u8,
        logs: Logs,
        edges: Edges,
        ends: Option<Ends>,
        value: i64,
    },
}

// Definitions in specs/ need the types above; a crate has at least one function.
pub fn unit() {}
