// Why a sheet, a name, a state or a text is refused: each condition by its name, with its number.
#![tactic(auto)]

ghost use Rattle.std.specs.Prelude.{◌≡◌};
ghost use Rattle.refusal.specs.Numbered.{number_for, numbered};

// The conditions in the order of their numbers, which C and the listing show.
#[derive(Clone, Copy, Debug, PartialEq, Eq)]
pub enum Refusal {
    SheetTooLong = 1,
    NoMark = 2,
    UnknownVersion = 3,
    CutShort = 4,
    NameLengthByte = 5,
    UnknownKind = 6,
    WrongSpelling = 7,
    NameLength = 8,
    NoSuchName = 9,
    FirstValue = 10,
    SecondValue = 11,
    OutsideFits = 12,
    TemperatureFit = 13,
    RoomTooShort = 14,
    ListTooLong = 15,
    NameTwice = 16,
    Gamma = 17,
    HasRemark = 18,
    SheetFull = 19,
}

impl Refusal {
    // The number of a condition, as it stands above: only `as` reads it.
    pub fn number(self) -> u32
        ensures { result ≡ number_for self }
    {
        self as u32
    }
}

// A result with the number in the refusal's place, as C and answers have it: what takes a number takes any.
pub fn by_number<T>(found: Result<T, Refusal>) -> Result<T, u32>
    ensures { result ≡ numbered found }
{
    match found {
        Ok(value) => Ok(value),
        Err(refusal) => Err(refusal.number()),
    }
}
