// What standard error is told where the system refuses a read or a write.
#![tactic(auto)]

use arrayvec::ArrayString;
use std::fmt::Write;
use std::io::Error;

// Writes a line on standard error: what failed, and the system's words for why.
pub fn complain(rt: &impl Eprint, what: &str, error: Error) {
    let mut told = ArrayString::<256>::new();
    let _ = write!(told, "{error}");
    let _ = eprintln!(rt; "{what}: {}", reason(told.as_str()));
}

// std adds the error's number in brackets, which is left out.
fn reason(told: &str) -> &str {
    told.split_once(" (os error ")
        .map_or(told, |(words, _)| words)
}
