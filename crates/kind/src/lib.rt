// The kinds of a record: what its two values are and which property is wanted.
#![tactic(auto)]

ghost use Rattle.std.specs.Prelude.{◌≡◌};
ghost use Rattle.kind.specs.Kind.{kind_of, is_known, Names};

use refusal::Refusal;

// The kinds in the order of their bytes.
#[derive(Clone, Copy, Debug, PartialEq, Eq)]
pub enum Kind {
    Temperature = 1,
    Entropy = 2,
    Pressure = 3,
}

impl TryFrom<u8> for Kind {
    type Error = Refusal;

    ghost try_from_gives = { Names };

    // The kind that a byte names.
    fn try_from(byte: u8) -> Result<Self, Refusal> {
        match byte {
            1 => Ok(Kind::Temperature),
            2 => Ok(Kind::Entropy),
            3 => Ok(Kind::Pressure),
            _ => Err(Refusal::UnknownKind),
        }
    }
}

// Whether a byte names a kind at all: refusal 6 where it does not.
pub fn is_known(byte: u8) -> bool
    ensures { result ≡ is_known (kind_of byte) }
{
    Kind::try_from(byte).is_ok()
}
