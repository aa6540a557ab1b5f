// The records of a state sheet in their order.
#![tactic(auto)]

ghost use Rattle.std.specs.Prelude.{◌≡◌};
ghost use Rattle.refusal.specs.Numbered.{numbered};
ghost use Rattle.sheet_walk.specs.Records.{record_of};

use distinct::Index;
use refusal::Refusal;
use sheet::Sheet;
use sheet_record::Record;

// A record by its number, from 0: 9 where there is none.
#[tactic(auto, using(crate::proofs::Numbered::numbered, crate::proofs::Numbered::none_left))]
pub fn record_in(sheet: &Sheet, i: usize) -> Result<Record, Refusal>
    ensures { numbered result ≡ record_of sheet.now i }
{
    if sheet.count() <= i {
        return Err(Refusal::NoSuchName);
    }
    Ok(sheet.record(i))
}

// A record of a sheet by its number, from 0: the sheet's refusals, then 9.
#[tactic(auto, using(crate::proofs::Numbered::refused_sheet))]
pub fn record_at(s: &[u8], i: usize) -> Result<Record, Refusal>
    ensures { numbered result ≡ record_of s.now i }
{
    let mut room = Index::blank();
    let sheet = sheet::index(s, &mut room)?;
    record_in(&sheet, i)
}
