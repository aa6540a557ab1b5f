// The search of a sheet by a spelled name.
#![tactic(auto)]

ghost use Rattle.std.specs.Prelude.{◌≡◌};
ghost use Rattle.refusal.specs.Numbered.{numbered};
ghost use Rattle.sheet_remark.specs.Remark.{remark_of, RemarkInside};
ghost use Rattle.air.specs.Held.{held};
ghost use Rattle.air.specs.Choices.{chosen};
ghost use Rattle.calculator.specs.Search.{locate, answer_at, IsSearch, search_by};
ghost use Rattle.calculator.specs.FoundName.{found_name};

use air::Answer;
use distinct::Index;
use refusal::Refusal;
use sheet::Sheet;
use sheet_record::Record;
use sheet_remark::Part;

// The record that a spelling finds in an accepted sheet.
#[tactic(auto, using(crate::proofs::Located::name_refused, crate::proofs::Located::name_read))]
pub fn locate_in(sheet: &Sheet, spelled: &[u8]) -> Result<Record, Refusal>
    ensures { numbered result ≡ locate sheet.now spelled.now }
{
    // that the sheet refuses nothing itself is told with its bytes
    let _ = sheet.bytes();
    let name = name_reader::read(spelled)?;
    sheet_search::find(sheet, &name)
}

// The record that a spelling finds in any bytes: the sheet's refusals, then the name's, then 9. By a number, not a spelling, it is
// `record_at` of sheet_walk: what the two share is the sheet's index, which borrows from both; a closure over it is no plainer.
#[tactic(auto, using(crate::proofs::Located::sheet_refused))]
pub fn locate(sheet: &[u8], spelled: &[u8]) -> Result<Record, Refusal>
    ensures { numbered result ≡ locate sheet.now spelled.now }
{
    let mut room = Index::blank();
    let sheet = sheet::index(sheet, &mut room)?;
    locate_in(&sheet, spelled)
}

// The answer for what was found.
fn answer_at(found: Result<Record, Refusal>) -> Answer
    ensures { held result ≡ answer_at chosen (numbered found) }
{
    match found {
        Err(refusal) => Answer::Refused(refusal.number()),
        Ok(record) => evaluate::evaluate(record.kind, record.first, record.second),
    }
}

// The answer for a spelling in an accepted sheet.
#[tactic(auto, unfolding(crate::specs::Search::search_by))]
pub fn answer_in(sheet: &Sheet, spelled: &[u8]) -> Answer
    ensures { held result ≡ search_by chosen sheet.now spelled.now }
{
    answer_at(locate_in(sheet, spelled))
}

// The answer for a sheet and a spelling of any bytes: the one that the program's choices make, which is one that is allowed.
pub fn search(sheet: &[u8], spelled: &[u8]) -> Answer
    ensures result_value { held result ≡ search_by chosen sheet.now spelled.now }
    ensures search { IsSearch sheet.now spelled.now result }
{
    answer_at(locate(sheet, spelled))
}

// The name that a search finds, as the part of the sheet that holds it; empty where the search refuses.
pub fn found_name<'a, 'b>(sheet: &'a [u8], spelled: &'b [u8]) -> &'a [u8]
    ensures { result.now ≡ found_name sheet.now spelled.now }
{
    sheet_search::handed_back(sheet, refusal::by_number(locate(sheet, spelled)))
}

// The remark of the record that a search finds, as the part of the sheet that holds it.
pub fn found_remark(sheet: &[u8], spelled: &[u8]) -> Result<Part, u32>
    ensures value { result ≡ remark_of sheet.now (locate sheet.now spelled.now) }
    ensures remark_inside { RemarkInside sheet.now result }
{
    sheet_remark::remark_of(sheet, refusal::by_number(locate(sheet, spelled)))
}
