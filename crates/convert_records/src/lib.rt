// A sheet's records in a version, with empty remarks.
#![tactic(auto)]

ghost use Rattle.std.specs.Prelude.{not, ◌++◌, ◌≡◌, ◌+◌, ◌≤◌, ◌<◌, eqb, length, drop, Ok};
ghost use Rattle.refusal.specs.Numbered.{numbered};
ghost use Rattle.octets.specs.Bytes.{number_at};
ghost use Rattle.octets.specs.Room.{fitting, written, put_at, outcome_of};
ghost use Rattle.sheet_record.specs.Front.{values_end};
ghost use Rattle.sheet.specs.Sheet.{sheet_of, records_of, Accepted};
ghost use Rattle.sheet_search.specs.Find.{Inside};
ghost use Rattle.sheet_remark.specs.Remark.{remark_in};
ghost use Rattle.convert_records.specs.Records.{empty_remark, record_as, records_as, header_as, sheet_as, bare};

use refusal::Refusal;
use sheet::Sheet;
use sheet_record::Record;

// An empty remark in a version.
fn empty_remark(version: u8) -> &'static [u8]
    ensures { result.now ≡ empty_remark version }
{
    if version == 2 { &[0] } else { &[] }
}

// Writes the mark, a version and a sheet's own count to the start of a room.
fn put_header(s: &[u8], version: u8, out: &mut [u8])
    requires { (7 ≤ length s.now) × (7 ≤ length out.old) }
    ensures { out.new ≡ header_as version s.now ++ drop 7 out.old }
{
    out[..7].copy_from_slice(&[b'E', b'A', b'S', 0, version, s[5], s[6]]);
}

// Copies a record of a sheet to a place of a room, with an empty remark, and gives the place behind it. A name's length fits a byte.
fn put_record(s: &[u8], r: Record, version: u8, out: &mut [u8], at: usize) -> usize
    requires { (r.len < 256) × (values_end r ≤ length s.now) × (at + length (record_as version s.now r) ≤ length out.old) }
    ensures value { result ≡ at + length (record_as version s.now r) }
    ensures out_after { out.new ≡ put_at out.old at (record_as version s.now r) }
{
    let start = octets::append(&[r.len as u8], out, at);
    let end = octets::append(&s[r.start..r.start + r.len + 17], out, start);
    octets::append(empty_remark(version), out, end)
}

// Writes the records of an accepted sheet to a room behind its header, in a version and with empty remarks.
fn put_records(s: &[u8], count: usize, version: u8, out: &mut [u8])
    requires { Accepted s.now × (count ≡ number_at 2 s.now 5) × (7 + length (records_as version s.now (records_of (sheet_of s.now))) ≤ length out.old) }
    ensures { out.new ≡ put_at out.old 7 (records_as version s.now (records_of (sheet_of s.now))) }
{
    let (mut from, mut at) = (7, 7);
    for i in 0..count {
        at = put_record(s, sheet_record::entry_at(s, from), version, out, at);
        from = sheet_record::past_at(s, from, count - i);
    }
}

// Writes an accepted sheet to lent room that is long enough for it, in a version and with empty remarks.
#[tactic(auto, using(sheet::proofs::Places::seven, crate::proofs::Turns::header_room, crate::proofs::Turns::put_whole))]
pub fn put_sheet(
    s: &[u8],
    count: usize,
    version: u8,
    len: usize,
    out: &mut [u8],
) -> Result<usize, Refusal>
    requires { Accepted s.now × (count ≡ number_at 2 s.now 5) × (length (sheet_as version s.now (records_of (sheet_of s.now))) ≡ len) }
    ensures value { numbered result ≡ outcome_of (fitting (length out.old) (sheet_as version s.now (records_of (sheet_of s.now)))) }
    ensures out_after { out.new ≡ written (fitting (length out.old) (sheet_as version s.now (records_of (sheet_of s.now)))) out.old }
{
    if out.len() < len {
        return Err(Refusal::RoomTooShort);
    }
    put_header(s, version, out);
    put_records(s, count, version, out);
    Ok(len)
}

// Whether a record has a remark.
#[tactic(auto, using(crate::proofs::Turns::remark_behind))]
fn is_remarked(s: &[u8], r: Record) -> bool
    requires { Inside s.now (Ok r) }
    ensures { eqb (remark_in s.now r).len 0 ≡ not result }
{
    1 < sheet_record::tail_at(s, r.start + r.len + 17)
}

// Whether some record of a sheet has a remark.
#[tactic(auto, using(crate::proofs::Turns::inside, crate::proofs::Turns::bare_found, crate::proofs::Turns::bare_more, crate::proofs::Turns::bare_none))]
pub fn has_remark(sheet: &Sheet) -> bool
    ensures { bare sheet.now (records_of (sheet_of sheet.now)) ≡ not result }
{
    for i in 0..sheet.count() {
        if is_remarked(sheet.bytes(), sheet.record(i)) {
            return true;
        }
    }
    false
}
