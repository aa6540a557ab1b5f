// Numbers in decimal, at the end of a line.
#![tactic(auto)]

ghost use Rattle.std.specs.Prelude.{◌≡◌, ◌+◌, ◌≤◌, ◌++◌, length};
ghost use Rattle.arrayvec.specs.ArrayVec.{array_vec_len};
ghost use Rattle.decimal.specs.Decimal.{natural, whole};

use arrayvec::ArrayVec;
use itoa::{Buffer, Integer};

// Puts a number behind a line that has room for its digits.
fn put<I: Integer, const N: usize>(line: &mut ArrayVec<u8, N>, n: I)
    requires { array_vec_len line.old + length (I.text n) ≤ N }
    ensures text { line.new.items ≡ line.old.items ++ I.text n }
    ensures len { array_vec_len line.new ≡ array_vec_len line.old + length (I.text n) }
{
    let mut digits = Buffer::new();
    line.try_extend_from_slice(digits.format(n).as_bytes())
        .unwrap();
}

// Puts a number that is not negative behind a line.
#[tactic(auto, using(crate::proofs::Texts::natural_text))]
pub fn put_natural<const N: usize>(line: &mut ArrayVec<u8, N>, n: u64)
    requires { array_vec_len line.old + length (natural n) ≤ N }
    ensures text { line.new.items ≡ line.old.items ++ natural n }
    ensures len { array_vec_len line.new ≡ array_vec_len line.old + length (natural n) }
{
    put(line, n);
}

// Puts a whole number behind a line.
#[tactic(auto, using(crate::proofs::Texts::whole_text))]
pub fn put_whole<const N: usize>(line: &mut ArrayVec<u8, N>, z: i64)
    requires { array_vec_len line.old + length (whole z) ≤ N }
    ensures text { line.new.items ≡ line.old.items ++ whole z }
    ensures len { array_vec_len line.new ≡ array_vec_len line.old + length (whole z) }
{
    put(line, z);
}
