// Version 1 of a state sheet to version 2, with empty remarks, and back.
#![tactic(auto)]

ghost use Rattle.std.specs.Prelude.{◌≡◌, length};
ghost use Rattle.refusal.specs.Numbered.{numbered};
ghost use Rattle.octets.specs.Room.{outcome_of, written};
ghost use Rattle.convert.specs.Convert.{forward, back};

use distinct::Index;
use refusal::Refusal;

// A sheet of version 1 in version 2, in lent room.
#[tactic(auto, using(crate::proofs::Texts::forward_laws))]
pub fn forward(s: &[u8], out: &mut [u8]) -> Result<usize, Refusal>
    ensures value { numbered result ≡ outcome_of (forward s.now (length out.old)) }
    ensures out_after { out.new ≡ written (forward s.now (length out.old)) out.old }
{
    let mut room = Index::blank();
    let sheet = sheet_version::index(s, 1, &mut room)?;
    let len = s.len() + sheet.count();
    if 65536 < len {
        return Err(Refusal::SheetTooLong);
    }
    convert_records::put_sheet(sheet.bytes(), sheet.count(), 2, len, out)
}

// A sheet of version 2 whose remarks are empty in version 1, in lent room.
#[tactic(auto, using(crate::proofs::Texts::back_laws))]
pub fn back(s: &[u8], out: &mut [u8]) -> Result<usize, Refusal>
    ensures value { numbered result ≡ outcome_of (back s.now (length out.old)) }
    ensures out_after { out.new ≡ written (back s.now (length out.old)) out.old }
{
    let mut room = Index::blank();
    let sheet = sheet_version::index(s, 2, &mut room)?;
    if convert_records::has_remark(&sheet) {
        return Err(Refusal::HasRemark);
    }
    let count = sheet.count();
    convert_records::put_sheet(sheet.bytes(), count, 1, s.len() - count, out)
}
