// Finding a name in the state sheet.
#![tactic(auto)]

ghost use Rattle.std.specs.Prelude.{◌≡◌};
ghost use Rattle.refusal.specs.Numbered.{numbered};
ghost use Rattle.sheet.specs.Sheet.{sheet_of, records_of, seen};
ghost use Rattle.sheet_search.specs.Find.{find_of, handed_back, Inside};

use refusal::Refusal;
use sheet::Sheet;
use sheet_record::Record;

// The record that has a name.
#[tactic(auto, using(crate::proofs::Named::named, crate::proofs::Named::unnamed))]
pub fn find(sheet: &Sheet, name: &[u8]) -> Result<Record, Refusal>
    ensures { numbered result ≡ find_of sheet.now name.now }
{
    match sheet.place_of(name) {
        Some(i) => Ok(sheet.record(i)),
        None => Err(Refusal::NoSuchName),
    }
}

// Whether a sheet has a name.
#[tactic(auto, using(crate::proofs::Named::named_seen))]
pub fn has(sheet: &Sheet, name: &[u8]) -> bool
    ensures { result ≡ seen sheet.now (records_of (sheet_of sheet.now)) name.now }
{
    sheet.place_of(name).is_some()
}

// The found name's own bytes in the sheet, or none where a number refuses, any number.
pub fn handed_back<'a>(s: &'a [u8], found: Result<Record, u32>) -> &'a [u8]
    requires { Inside s.now found }
    ensures { result.now ≡ handed_back s.now found }
{
    match found {
        Ok(r) => &s[r.start..r.start + r.len],
        Err(_) => &s[0..0],
    }
}
