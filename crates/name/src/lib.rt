// Names and their spelling by RFC 3986: the bytes that stand for themselves, and hexadecimal digits. Reading and writing stand above.
#![tactic(auto)]

ghost use Rattle.std.specs.Prelude.{◌≡◌, ◌<◌};
ghost use Rattle.name.specs.Spelling.{unreserved, digit_of, hex_digit};

use arrayvec::ArrayVec;

// A name, in room for the 40 bytes of the longest.
pub type Name = ArrayVec<u8, 40>;

// A name as it is written, in room for three bytes for each of its own.
pub type Spelling = ArrayVec<u8, 120>;

// Whether a byte stands for itself.
#[tactic(auto, unfolding(crate::specs::Spelling::unreserved))]
pub fn plain(x: u8) -> bool
    ensures { result ≡ unreserved x }
{
    x.is_ascii_alphanumeric() || matches!(x, b'-' | b'.' | b'_' | b'~')
}

// The value of a hexadecimal digit of either case. `to_digit` gives 32 bits of a value below 16.
#[tactic(auto, unfolding(crate::specs::Spelling::hex_value))]
pub fn hex_value(x: u8) -> Option<u8>
    ensures { result ≡ digit_of x }
{
    Some(char::from(x).to_digit(16)? as u8)
}

// A hexadecimal digit, upper case; `from_digit` gives lower case.
pub fn hex_digit(n: u8) -> u8
    requires { n < 16 }
    ensures { result ≡ hex_digit n }
{
    if n < 10 { b'0' + n } else { b'A' + (n - 10) }
}
