// The header of the state sheet.
#![tactic(auto)]

ghost use Rattle.std.specs.Prelude.{◌≡◌};
ghost use Rattle.refusal.specs.Numbered.{number_or_0};
ghost use Rattle.sheet_head.specs.Head.{head_fault};

use refusal::Refusal;

// Whether the sheet as a whole is refused: its length, its mark, its version.
#[tactic(auto, using(crate::proofs::Head::mark_starts), unfolding(crate::specs::Head::head_fault))]
pub fn check(s: &[u8]) -> Result<(), Refusal>
    ensures { number_or_0 result ≡ head_fault s.now }
{
    if 65536 < s.len() {
        return Err(Refusal::SheetTooLong);
    }
    if s.len() < 7 || !s.starts_with(b"EAS") {
        return Err(Refusal::NoMark);
    }
    let version = sheet_record::number(s, 3, 2);
    if version == 1 || version == 2 {
        Ok(())
    } else {
        Err(Refusal::UnknownVersion)
    }
}
