// A line of the listing: a name as it is shown, and what is held under it.
#![tactic(auto)]

ghost use Rattle.std.specs.Prelude.{◌≡◌, ◌+◌, ◌≤◌, [], ◌∷◌, ◌++◌, true, length};
ghost use Rattle.arrayvec.specs.ArrayVec.{array_vec_len};
ghost use Rattle.air.specs.Held.{held};
ghost use Rattle.decimal.specs.Decimal.{whole};
ghost use Rattle.name.specs.Name.{is_length};
ghost use Rattle.name.specs.Spelling.{spelled};
ghost use Rattle.line.specs.Line.{value_rest, refusal_rest, line_of, line};

use air::{Answer, Logs};
use arrayvec::ArrayVec;

// The text of a line, which fits 192 bytes.
pub type Line = ArrayVec<u8, 192>;

// Puts what follows the name of a refused one.
#[tactic(auto, using(decimal::proofs::Texts::natural_short), unfolding(crate::specs::Line::refusal_rest))]
fn put_refusal(line: &mut Line, number: u32)
    requires { array_vec_len line.old ≤ 120 }
    ensures text { line.new.items ≡ line.old.items ++ refusal_rest number }
    ensures len_bound { array_vec_len line.new ≤ array_vec_len line.old + 66 }
{
    line.try_extend_from_slice(b" ! ").unwrap();
    decimal::put_natural(line, u64::from(number));
    line.push(b'\n');
}

// Puts a number and the byte behind it.
#[tactic(auto, using(decimal::proofs::Texts::column_short))]
fn put_number(line: &mut Line, number: i64, behind: u8)
    requires { array_vec_len line.old ≤ 171 }
    ensures text { line.new.items ≡ line.old.items ++ (whole number ++ behind ∷ []) }
    ensures len_bound { array_vec_len line.new ≤ array_vec_len line.old + 21 }
{
    decimal::put_whole(line, number);
    line.push(behind);
}

// Puts what follows the name where there is a value.
#[tactic(auto, unfolding(crate::specs::Line::value_rest))]
fn put_value(line: &mut Line, letter: u8, logs: Logs, value: i64)
    requires { array_vec_len line.old ≤ 120 }
    ensures text { line.new.items ≡ line.old.items ++ value_rest letter logs.y logs.z value }
    ensures len_bound { array_vec_len line.new ≤ array_vec_len line.old + 66 }
{
    line.try_extend_from_slice(&[b' ', letter, b' ']).unwrap();
    put_number(line, logs.y, b' ');
    put_number(line, logs.z, b' ');
    put_number(line, value, b'\n');
}

// The line that shows an answer under a name.
pub fn build(name: &[u8], answer: Answer) -> Line
    requires { length name.now ≤ 120 }
    ensures text { result.items ≡ line_of name.now (held answer) }
    ensures len_in_bounds { array_vec_len result ≤ length name.now + 66 }
{
    let mut line = Line::new();
    line.try_extend_from_slice(name).unwrap();
    match answer {
        Answer::Refused(number) | Answer::Judged { number, .. } => {
            put_refusal(&mut line, number);
        }
        Answer::Shows {
            letter,
            logs,
            value,
            ..
        } => put_value(&mut line, letter, logs, value),
    }
    line
}

// The line for a name and its answer.
#[tactic(auto, using(name::proofs::Written::spelling_whole, name::proofs::Written::short))]
pub fn line_of_name(name: &[u8], answer: Answer) -> Line
    requires { is_length (length name.now) ≡ true }
    ensures text { result.items ≡ line_of (spelled name.now) (held answer) }
    ensures len_bound { array_vec_len result ≤ 192 }
{
    build(&name_writer::spelling(name).unwrap(), answer)
}

// The line for a spelling and its answer: ? stands for a name that cannot be read.
#[tactic(auto, using(crate::proofs::Names::valid), unfolding(crate::specs::Line::line))]
pub fn line_of(spelled: &[u8], answer: Answer) -> Line
    ensures text { result.items ≡ line spelled.now (held answer) }
    ensures len_bound { array_vec_len result ≤ 192 }
{
    match name_reader::read(spelled) {
        Ok(name) => line_of_name(&name, answer),
        Err(_) => build(b"?", answer),
    }
}
