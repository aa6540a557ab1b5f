// Bytes: definitions and laws that names, sheets and lines share.
#![tactic(auto)]

ghost use Rattle.std.specs.Prelude.{◌≡◌, ◌+◌, ◌≤◌, length};
ghost use Rattle.refusal.specs.Numbered.{numbered};
ghost use Rattle.octets.specs.Room.{fitting, written, put_at, outcome_of};

use refusal::Refusal;

// Copies a text to the start of lent room that is long enough for it, and gives its length.
pub fn put(text: &[u8], out: &mut [u8]) -> Result<usize, Refusal>
    ensures value { numbered result ≡ outcome_of (fitting (length out.old) text.now) }
    ensures out_after { out.new ≡ written (fitting (length out.old) text.now) out.old }
{
    if out.len() < text.len() {
        return Err(Refusal::RoomTooShort);
    }
    // byte by byte: copy_from_slice would have the library ask C for memmove, which it does without
    for i in 0..text.len() {
        out[i] = text[i];
    }
    Ok(text.len())
}

// Copies a text to a place of a room that has space for it, and gives the place behind it.
pub fn append(text: &[u8], out: &mut [u8], at: usize) -> usize
    requires { at + length text.now ≤ length out.old }
    ensures value { result ≡ at + length text.now }
    ensures out_after { out.new ≡ put_at out.old at text.now }
{
    let _ = put(text, &mut out[at..]);
    at + text.len()
}
