// The remark of a found record, for an editor.
#![tactic(auto)]

ghost use Rattle.std.specs.Prelude.{◌≡◌, ◌≤◌, length, drop};
ghost use Rattle.sheet_record.specs.Layout.{layout_in};
ghost use Rattle.sheet_record.specs.Front.{Whole};
ghost use Rattle.sheet_search.specs.Find.{Inside};
ghost use Rattle.sheet_remark.specs.Remark.{remark_at, remark_of, RemarkInside};

use sheet_record::Record;

// A part of a sheet, as C is given it.
#[derive(Clone, Copy)]
pub struct Part {
    pub start: usize,
    pub len: usize,
}

// The remark behind a second value, which ends at a place.
#[tactic(auto, using(crate::proofs::Remarks::whole_is, crate::proofs::Remarks::none_follow, crate::proofs::Remarks::some_follow))]
fn remark_at(s: &[u8], end: usize) -> Part
    requires { (5 ≤ length s.now) × Whole (layout_in s.now) s.now end }
    ensures { result ≡ remark_at end ((layout_in s.now).tail (drop end s.now)) }
{
    let tail = sheet_record::tail_at(s, end);
    if tail == 0 {
        return Part { start: end, len: 0 };
    }
    Part {
        start: end + 1,
        len: tail - 1,
    }
}

// The remark of what was found, which lies in the sheet, or the number that refuses, any number.
#[tactic(auto, using(crate::proofs::Remarks::remark_inside))]
pub fn remark_of(s: &[u8], found: Result<Record, u32>) -> Result<Part, u32>
    requires { Inside s.now found }
    ensures value { result ≡ remark_of s.now found }
    ensures remark_inside { RemarkInside s.now result }
{
    let r = found?;
    Ok(remark_at(s, r.start + r.len + 17))
}
