// What C gets of an answer: a flat struct.
#![tactic(auto)]

ghost use Rattle.std.specs.Prelude.{◌≡◌, ◌≤◌};
ghost use Rattle.air.specs.Held.{held};
ghost use Rattle.flat.specs.Flat.{flat_edges, assembled, flat};

use air::{Answer, Edges, Ends, Logs};

// C's structs have a number for each refusal, and 0 for none.
#[repr(C)]
#[derive(Clone, Copy)]
pub struct CEdge {
    pub fit: i64,
    pub weight: i64,
    pub value: i64,
}

#[repr(C)]
#[derive(Clone, Copy)]
pub struct CAnswer {
    pub number: u32,
    pub letter: u32,
    pub carries: u32,
    pub x: i64,
    pub y: i64,
    pub z: i64,
    pub value: i64,
    pub low: CEdge,
    pub high: CEdge,
}

// The low and the high edge, with the bits that say which are carried.
#[derive(Clone, Copy)]
pub struct CEdges {
    pub bits: u32,
    pub low: CEdge,
    pub high: CEdge,
}

// The edges that an answer carries, with their own values.
#[tactic(auto, unfolding(crate::specs::Flat::flat_edges))]
fn flat_edges(edges: Edges, low: i64, high: i64) -> CEdges
    ensures value { result ≡ flat_edges edges low high }
    ensures bits { result.bits ≤ 12 }
{
    let none = CEdge {
        fit: 0,
        weight: 0,
        value: 0,
    };
    match edges {
        Edges::Unfitted => CEdges {
            bits: 0,
            low: none,
            high: none,
        },
        Edges::One(e) => CEdges {
            bits: 4,
            low: CEdge {
                fit: e.fit,
                weight: e.weight,
                value: low,
            },
            high: none,
        },
        Edges::Two(e, f) => CEdges {
            bits: 12,
            low: CEdge {
                fit: e.fit,
                weight: e.weight,
                value: low,
            },
            high: CEdge {
                fit: f.fit,
                weight: f.weight,
                value: high,
            },
        },
    }
}

// The parts of an answer put together; `bit` is that of the value.
fn assemble(number: u32, letter: u8, logs: Logs, edges: CEdges, bit: u32, value: i64) -> CAnswer
    requires { (edges.bits ≤ 12) × (bit ≤ 16) }
    ensures { result ≡ assembled number letter logs edges bit value }
{
    let logs_bits: u32 = if logs.x.is_some() { 3 } else { 1 };
    CAnswer {
        number,
        letter: u32::from(letter),
        carries: logs_bits + edges.bits + bit,
        x: logs.x.unwrap_or(0),
        y: logs.y,
        z: logs.z,
        value,
        low: edges.low,
        high: edges.high,
    }
}

// An answer as C takes it.
#[tactic(auto, unfolding(crate::specs::Flat::flat, crate::specs::Flat::flat_edges))]
pub fn flatten(a: Answer) -> CAnswer
    ensures { result ≡ flat (held a) }
{
    match a {
        Answer::Refused(number) => {
            let none = CEdge {
                fit: 0,
                weight: 0,
                value: 0,
            };
            CAnswer {
                number,
                letter: 0,
                carries: 0,
                x: 0,
                y: 0,
                z: 0,
                value: 0,
                low: none,
                high: none,
            }
        }
        Answer::Judged {
            letter,
            number,
            logs,
            edges,
        } => assemble(number, letter, logs, flat_edges(edges, 0, 0), 0, 0),
        Answer::Shows {
            letter,
            logs,
            edges,
            ends,
            value,
        } => {
            let ends = ends.unwrap_or(Ends { low: 0, high: 0 });
            assemble(
                0,
                letter,
                logs,
                flat_edges(edges, ends.low, ends.high),
                16,
                value,
            )
        }
    }
}
