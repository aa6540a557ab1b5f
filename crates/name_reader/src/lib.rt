// The name that a spelling reads to.
#![tactic(auto)]

ghost use Rattle.std.specs.Prelude.{◌≡◌, ◌<◌, length, MatchOption};
ghost use Rattle.name.specs.Spelling.{reading, wrong, push};
ghost use Rattle.name.specs.Name.{name_of};
ghost use Rattle.name.specs.Told.{told};

use name::Name;
use refusal::Refusal;

// The byte that a spelling begins with, and what is left behind it.
#[tactic(auto, using(crate::proofs::Forms::percent), unfolding(name::specs::Spelling::reading))]
fn first_byte(spelling: &[u8]) -> Option<(u8, &[u8])>
    requires { 0 < length spelling.now }
    ensures { MatchOption result (reading spelling.now ≡ wrong)
        (λ r. (reading spelling.now ≡ push r.0 (reading r.1.now)) × (length r.1.now < length spelling.now)) }
{
    match spelling {
        [b'%', high, low, rest @ ..] => {
            let byte = name::hex_value(*high)? * 16 + name::hex_value(*low)?;
            Some((byte, rest))
        }
        [byte, rest @ ..] if name::plain(*byte) => Some((*byte, rest)),
        _ => None,
    }
}

// The name that a spelling reads to.
#[tactic(auto, using(crate::proofs::Kept::kept_refused, crate::proofs::Kept::kept_whole), unfolding(name::specs::Name::name_of))]
pub fn read(spelling: &[u8]) -> Result<Name, Refusal>
    ensures { told result ≡ name_of spelling.now }
{
    let mut name = Name::new();
    let mut too_long = false;
    // a byte is spelled by one or three
    let mut rest = spelling;
    while !rest.is_empty() {
        let (byte, behind) = first_byte(rest).ok_or(Refusal::WrongSpelling)?;
        too_long = name.try_push(byte).is_err();
        rest = behind;
    }
    if too_long || name.is_empty() {
        return Err(Refusal::NameLength);
    }
    Ok(name)
}
