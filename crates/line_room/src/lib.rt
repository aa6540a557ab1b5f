// A line in lent room.
#![tactic(auto)]

ghost use Rattle.std.specs.Prelude.{◌++◌, ◌≡◌, ◌+◌, ◌≤◌, length};
ghost use Rattle.arrayvec.specs.ArrayVec.{array_vec_len};
ghost use Rattle.refusal.specs.Numbered.{numbered};
ghost use Rattle.line.specs.Line.{refusal_rest};
ghost use Rattle.octets.specs.Room.{fitting, written, put_at, outcome_of};

use air::Answer;
use line::Line;
use refusal::Refusal;

// Copies a line to the start of lent room that is long enough for it.
pub fn put_line(line: &Line, out: &mut [u8]) -> Result<usize, Refusal>
    ensures value { numbered result ≡ outcome_of (fitting (length out.old) line.now.items) }
    ensures out_after { out.new ≡ written (fitting (length out.old) line.now.items) out.old }
{
    octets::put(line, out)
}

// Copies a line to a place of a room that has space for it, and gives the place behind it.
pub fn append(line: &Line, out: &mut [u8], at: usize) -> usize
    requires { at + array_vec_len line.now ≤ length out.old }
    ensures value { result ≡ at + array_vec_len line.now }
    ensures out_after { out.new ≡ put_at out.old at line.now.items }
{
    octets::append(line, out, at)
}

// The line that refuses a whole sheet or list by a number, any number, in lent room.
pub fn put_refused(word: &[u8], number: u32, out: &mut [u8]) -> Result<usize, Refusal>
    requires { length word.now ≤ 120 }
    ensures number_in_bounds { length (word.now ++ refusal_rest number) ≤ length word.now + 66 }
    ensures value { numbered result ≡ outcome_of (fitting (length out.old) (word.now ++ refusal_rest number)) }
    ensures out_after { out.new ≡ written (fitting (length out.old) (word.now ++ refusal_rest number)) out.old }
{
    put_line(&line::build(word, Answer::Refused(number)), out)
}
