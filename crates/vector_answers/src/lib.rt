// What the vectors program writes: answers in columns, numbers and bytes. A write that fails is passed over.
#![tactic(auto)]

use air::{Answer, Edges, Ends, Logs};
use fit::Edge;
use refusal::Refusal;
use std::fmt::Display;

pub fn say(rt: &impl Print, bytes: &[u8]) {
    let _ = rt.write_all(bytes);
}

// A space and a number.
pub fn column(rt: &impl Print, n: impl Display + Drop) {
    let _ = print!(rt; " {n}");
}

// A refusal by its number, as C's struct of a step has it.
pub fn refused(rt: &impl Print, number: u32) {
    let _ = print!(rt; " refused {number}");
}

// Bytes between < and >.
pub fn between(rt: &impl Print, bytes: &[u8]) {
    say(rt, b" <");
    say(rt, bytes);
    say(rt, b">");
}

// Of an answer x, y, z, a fit and its weight (in a join the lower edge's), the value, the upper edge's fit and weight, the values at
// both edges. What is not carried is 0.
fn columns(logs: Logs, edges: Edges, ends: Option<Ends>, value: i64) -> [i64; 10] {
    let none = Edge { fit: 0, weight: 0 };
    let (low, high) = match edges {
        Edges::Unfitted => (none, none),
        Edges::One(edge) => (edge, none),
        Edges::Two(low, high) => (low, high),
    };
    let ends = ends.unwrap_or(Ends { low: 0, high: 0 });
    [
        logs.x.unwrap_or(0),
        logs.y,
        logs.z,
        low.fit,
        low.weight,
        value,
        high.fit,
        high.weight,
        ends.low,
        ends.high,
    ]
}

// An answer: the refusal's number or 0, the letter or 0, the columns.
pub fn answer(rt: &impl Print, answer: Answer) {
    let (number, letter, columns) = match answer {
        Answer::Refused(number) => (number, b'0', [0; 10]),
        Answer::Judged {
            letter,
            number,
            logs,
            edges,
        } => (number, letter, columns(logs, edges, None, 0)),
        Answer::Shows {
            letter,
            logs,
            edges,
            ends,
            value,
        } => (0, letter, columns(logs, edges, ends, value)),
    };
    let _ = print!(rt; " {number} {}", char::from(letter));
    for n in columns {
        column(rt, n);
    }
}

// What became of a text.
pub fn outcome(rt: &impl Print, outcome: Result<usize, Refusal>) {
    match outcome {
        Ok(n) => column(rt, n),
        Err(refusal) => refused(rt, refusal.number()),
    }
}

// Bytes in decimal.
pub fn values(rt: &impl Print, bytes: &[u8]) {
    for b in bytes {
        column(rt, *b);
    }
}

// The largest prime of 32 bits.
const PRIME: u64 = 4294967291;

// Bytes as one number, high byte first, modulo the prime: each byte counts, and its place.
fn remainder(bytes: &[u8]) -> u64 {
    bytes
        .iter()
        .fold(0, |rest, b| (rest % PRIME * 256 + u64::from(*b)) % PRIME)
}

// A whole room: the bytes of a short one, the remainder of a long one.
pub fn whole(rt: &impl Print, room: &[u8]) {
    if room.len() <= 100 {
        say(rt, b", room");
        values(rt, room);
    } else {
        let _ = print!(rt; ", remainder {}", remainder(room));
    }
}
