// The state sheet where one version is read.
#![tactic(auto)]

ghost use Rattle.std.specs.Prelude.{◌≡◌, IfOk, MatchResult};
ghost use Rattle.refusal.specs.Numbered.{number_for, number_or_0};
ghost use Rattle.octets.specs.Bytes.{number_at};
ghost use Rattle.distinct.specs.Chain.{Blank};
ghost use Rattle.sheet.specs.Sheet.{number_of};
ghost use Rattle.sheet_version.specs.Version.{sheet_in};

use distinct::Index;
use refusal::Refusal;
use sheet::Sheet;

// Whether a sheet's header is refused, or its version is another.
#[tactic(auto, using(crate::proofs::Version::head_refused, crate::proofs::Version::other_refused, crate::proofs::Version::five))]
fn check_version(s: &[u8], version: u64) -> Result<(), Refusal>
    ensures { MatchResult result (λ _. number_at 2 s.now 3 ≡ version) (λ r. number_for r ≡ number_of (sheet_in version s.now)) }
{
    sheet_head::check(s)?;
    if sheet_record::number(s, 3, 2) != version {
        return Err(Refusal::UnknownVersion);
    }
    Ok(())
}

// The first condition that refuses a sheet of a version, or the sheet with its index in the room.
#[tactic(auto, using(crate::proofs::Version::number_same))]
pub fn index<'a>(bytes: &'a [u8], version: u64, room: &'a mut Index) -> Result<Sheet<'a>, Refusal>
    requires { Blank room.old }
    ensures value { number_or_0 result ≡ number_of (sheet_in version bytes.now) }
    ensures sheet { IfOk result (λ t. t ≡ bytes.now) }
{
    check_version(bytes, version)?;
    sheet::index(bytes, room)
}

// The first condition that refuses a sheet of a version, if any does.
#[tactic(auto, using(crate::proofs::Version::number_same))]
pub fn check(s: &[u8], version: u64) -> Result<(), Refusal>
    ensures { number_or_0 result ≡ number_of (sheet_in version s.now) }
{
    check_version(s, version)?;
    sheet::check(s)
}
