// The C interface: thin entries over the proved crates. No entry keeps state, and none asks anything of its caller.
#![tactic(auto)]

ghost use Rattle.std.specs.Prelude.{◌≡◌, ◌+◌, ◌≤◌, length};
ghost use Rattle.refusal.specs.Numbered.{numbered};
ghost use Rattle.octets.specs.Room.{written, outcome_of};
ghost use Rattle.name.specs.Name.{spelling_of};
ghost use Rattle.sheet.specs.Sheet.{sheet_of, number_of};
ghost use Rattle.sheet_remark.specs.Remark.{remark_of};
ghost use Rattle.sheet_walk.specs.Records.{record_of};
ghost use Rattle.air.specs.Choices.{chosen};
ghost use Rattle.state.specs.State.{answer_by};
ghost use Rattle.convert.specs.Convert.{forward, back};
ghost use Rattle.append.specs.Add.{added};
ghost use Rattle.walk.specs.Walk.{begun_by, stepped, step_of};
ghost use Rattle.mark.specs.Mark.{mark_of};
ghost use Rattle.calculator.specs.Search.{locate, search_by};
ghost use Rattle.flat.specs.Flat.{flat};
ghost use Rattle.flat_parts.specs.Flat.{flat_found, flat_remark, flat_text, flat_mark};
ghost use Rattle.c_laws.specs.Allowed.{IsFlatSearch, IsFlatAnswer, IsFlatMark, IsFlatLine, IsFlatListing, IsFlatStep};
ghost use Rattle.name_room.specs.Read.{read_in};
ghost use Rattle.c_laws.specs.Texts.{line_in, listing_in};

use air::Answer;
use flat::CAnswer;
use flat_parts::{CMark, CPart, CRecord, CText};
use refusal::Refusal;
use sheet_record::Record;
use walk::{Begun, Step, Walk};

// A text's length or refusal as C takes it, by its number.
fn text_for_c(text: Result<usize, Refusal>) -> CText
    ensures { result ≡ flat_text (numbered text) }
{
    flat_parts::flatten_text(refusal::by_number(text))
}

// A found record or a refusal as C takes it, by its number.
fn record_for_c(found: Result<Record, Refusal>) -> CRecord
    ensures { result ≡ flat_found (numbered found) }
{
    flat_parts::flatten_found(refusal::by_number(found))
}

// The sheet's number, for C: 0, 1 to 6, 16.
#[unsafe(no_mangle)]
pub extern "C" fn eas_check(sheet: &[u8]) -> u32
    ensures { result ≡ number_of (sheet_of sheet.now) }
{
    flat_parts::flatten_check(sheet::check(sheet))
}

// The record of a spelled name, and where its name stands.
#[unsafe(no_mangle)]
pub extern "C" fn eas_find(sheet: &[u8], spelled: &[u8]) -> CRecord
    ensures value { result ≡ flat_found (locate sheet.now spelled.now) }
    ensures length_in_bounds { result.start + result.length ≤ length sheet.now }
{
    record_for_c(calculator::locate(sheet, spelled))
}

// The remark of a spelled name's record, as the part of the sheet that holds it. That its bytes stand there is `FoundRemark` (c_laws/specs/Remarks).
#[unsafe(no_mangle)]
pub extern "C" fn eas_remark(sheet: &[u8], spelled: &[u8]) -> CPart
    ensures value { result ≡ flat_remark (remark_of sheet.now (locate sheet.now spelled.now)) }
    ensures length_in_bounds { result.start + result.length ≤ length sheet.now }
{
    flat_parts::flatten_remark(calculator::found_remark(sheet, spelled))
}

// A record by its number, from 0, and where its name stands.
#[unsafe(no_mangle)]
pub extern "C" fn eas_record_at(sheet: &[u8], i: usize) -> CRecord
    ensures value { result ≡ flat_found (record_of sheet.now i) }
    ensures length_in_bounds { result.start + result.length ≤ length sheet.now }
{
    record_for_c(sheet_walk::record_at(sheet, i))
}

// The answer for a spelled name. Demand 3 of it is `FlatDemand3` (c_laws/specs/Demand3).
#[unsafe(no_mangle)]
pub extern "C" fn eas_search(sheet: &[u8], spelled: &[u8]) -> CAnswer
    ensures value { result ≡ flat (search_by chosen sheet.now spelled.now) }
    ensures flat_search { IsFlatSearch sheet.now spelled.now result }
{
    flat::flatten(calculator::search(sheet, spelled))
}

// The answer for a state handed in: any number as its kind, since C hands in any, and any two values.
#[unsafe(no_mangle)]
pub extern "C" fn eas_evaluate(kind: u32, first: u64, second: u64) -> CAnswer
    ensures value { result ≡ flat (answer_by chosen kind first second) }
    ensures flat_answer { IsFlatAnswer kind first second result }
{
    match u8::try_from(kind) {
        Ok(byte) => flat::flatten(evaluate::evaluate(byte, first, second)),
        Err(_) => flat::flatten(Answer::Refused(Refusal::UnknownKind.number())),
    }
}

// The plot mark of a spelled name. That both doubles are exact is `PlotExact` (c_laws/specs/Plot).
#[unsafe(no_mangle)]
pub extern "C" fn eas_plot(sheet: &[u8], spelled: &[u8]) -> CMark
    ensures value { result ≡ flat_mark (mark_of (search_by chosen sheet.now spelled.now)) }
    ensures flat_mark { IsFlatMark sheet.now spelled.now result }
{
    flat_parts::flatten_mark(mark::mark_of(calculator::search(sheet, spelled)))
}

// The listing line of a spelled name, in lent room. That every line fits 192 bytes is `LineFits` (c_laws/specs/Texts).
#[unsafe(no_mangle)]
pub extern "C" fn eas_line(sheet: &[u8], spelled: &[u8], out: &mut [u8]) -> CText
    ensures value { result ≡ flat_text (outcome_of (line_in (length out.old) sheet.now spelled.now)) }
    ensures out_after { out.new ≡ written (line_in (length out.old) sheet.now spelled.now) out.old }
    ensures flat_line { IsFlatLine sheet.now spelled.now out.old out.new result }
{
    text_for_c(report::line(sheet, spelled, out))
}

// The whole listing of spelled names, one a line, in lent room. How much room is enough is `ListingFits` (c_laws/specs/Texts).
#[unsafe(no_mangle)]
pub extern "C" fn eas_list(sheet: &[u8], names: &[u8], out: &mut [u8]) -> CText
    ensures value { result ≡ flat_text (outcome_of (listing_in (length out.old) sheet.now names.now)) }
    ensures out_after { out.new ≡ written (listing_in (length out.old) sheet.now names.now) out.old }
    ensures flat_listing { IsFlatListing sheet.now names.now out.old out.new result }
{
    text_for_c(run_list::listing(sheet, names, out))
}

// Spells a raw name into lent room.
#[unsafe(no_mangle)]
pub extern "C" fn eas_spell(name: &[u8], out: &mut [u8]) -> CText
    ensures value { result ≡ flat_text (outcome_of (spelling_of name.now (length out.old))) }
    ensures out_after { out.new ≡ written (spelling_of name.now (length out.old)) out.old }
{
    text_for_c(name_writer::spell(name, out))
}

// Reads a spelling into lent room.
#[unsafe(no_mangle)]
pub extern "C" fn eas_read(spelled: &[u8], out: &mut [u8]) -> CText
    ensures value { result ≡ flat_text (outcome_of (read_in (length out.old) spelled.now)) }
    ensures out_after { out.new ≡ written (read_in (length out.old) spelled.now) out.old }
{
    text_for_c(name_room::read(spelled, out))
}

// A sheet of version 1 in version 2, with empty remarks, in lent room. What is kept of the sheet is `FlatForward` (c_laws/specs/Converted).
#[unsafe(no_mangle)]
pub extern "C" fn eas_forward(sheet: &[u8], out: &mut [u8]) -> CText
    ensures value { result ≡ flat_text (outcome_of (forward sheet.now (length out.old))) }
    ensures out_after { out.new ≡ written (forward sheet.now (length out.old)) out.old }
{
    text_for_c(convert::forward(sheet, out))
}

// A sheet of version 2 whose remarks are empty in version 1, in lent room. What is kept of the sheet is `FlatBack` (c_laws/specs/Converted).
#[unsafe(no_mangle)]
pub extern "C" fn eas_back(sheet: &[u8], out: &mut [u8]) -> CText
    ensures value { result ≡ flat_text (outcome_of (back sheet.now (length out.old))) }
    ensures out_after { out.new ≡ written (back sheet.now (length out.old)) out.old }
{
    text_for_c(convert::back(sheet, out))
}

// A walk over the records that a sheet has now.
#[unsafe(no_mangle)]
pub extern "C" fn eas_begin(sheet: &[u8]) -> Begun
    ensures { result ≡ begun_by (sheet_of sheet.now) }
{
    walk::begin(sheet)
}

// The listing line of a walk's next record, in lent room, and the walk after it. That a walk covers all records is `FlatWalkCovers`, and that no add
// disturbs it `FlatUndisturbed` (c_laws/specs/Growing).
#[unsafe(no_mangle)]
pub extern "C" fn eas_next(sheet: &[u8], walk: Walk, out: &mut [u8]) -> Step
    ensures value { result ≡ step_of walk (stepped chosen sheet.now walk (length out.old)) }
    ensures out_after { out.new ≡ written (stepped chosen sheet.now walk (length out.old)) out.old }
    ensures flat_step { IsFlatStep sheet.now walk out.old out.new result }
{
    walk::take_step(sheet, walk, out)
}

// A sheet of version 2 with one state more, of any kind, since C hands in any, in lent room. What is kept of the sheet is `FlatAdd` (c_laws/specs/Growing).
#[unsafe(no_mangle)]
pub extern "C" fn eas_add(
    sheet: &[u8],
    spelled: &[u8],
    kind: u32,
    first: u64,
    second: u64,
    out: &mut [u8],
) -> CText
    ensures value { result ≡ flat_text (outcome_of (added sheet.now spelled.now kind first second (length out.old))) }
    ensures out_after { out.new ≡ written (added sheet.now spelled.now kind first second (length out.old)) out.old }
{
    text_for_c(append::add(sheet, spelled, kind, first, second, out))
}
