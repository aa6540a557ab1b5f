// A state more at the end of a sheet.
#![tactic(auto)]

ghost use Rattle.std.specs.Prelude.{not, ◌≡◌, ◌≤◌, length};
ghost use Rattle.refusal.specs.Numbered.{numbered, number_or_0};
ghost use Rattle.kind.specs.Kind.{kind_of, is_known};
ghost use Rattle.octets.specs.Room.{outcome_of, written};
ghost use Rattle.sheet.specs.Sheet.{sheet_of, number_of, records_of, seen};
ghost use Rattle.sheet_version.specs.Version.{sheet_in};
ghost use Rattle.append.specs.Add.{add_fault, added};

use distinct::Index;
use refusal::Refusal;

// Whether a number names a kind: C hands in any.
#[tactic(auto, using(kind::proofs::Byte::no_kind))]
fn is_known(kind: u32) -> bool
    ensures { result ≡ is_known (kind_of kind) }
{
    match u8::try_from(kind) {
        Ok(byte) => kind::is_known(byte),
        Err(_) => false,
    }
}

// Why a state may not be added, the first of four reasons: its kind, its name, the length that the sheet would have, and the room for that.
fn check(known: bool, there: bool, len: usize, room: usize) -> Result<(), Refusal>
    ensures { number_or_0 result ≡ add_fault known there len room }
{
    if !known {
        return Err(Refusal::UnknownKind);
    }
    if there {
        return Err(Refusal::NameTwice);
    }
    if 65536 < len {
        return Err(Refusal::SheetFull);
    }
    if room < len {
        return Err(Refusal::RoomTooShort);
    }
    Ok(())
}

// Adds a state under a spelled name to a sheet of version 2, in lent room, and gives the length of the sheet that grew.
#[tactic(auto, using(crate::proofs::Faults::add_laws))]
pub fn add(
    s: &[u8],
    spelled: &[u8],
    kind: u32,
    first: u64,
    second: u64,
    out: &mut [u8],
) -> Result<usize, Refusal>
    ensures value { numbered result ≡ outcome_of (added s.now spelled.now kind first second (length out.old)) }
    ensures out_after { out.new ≡ written (added s.now spelled.now kind first second (length out.old)) out.old }
{
    let mut room = Index::blank();
    let sheet = sheet_version::index(s, 2, &mut room)?;
    let name = name_reader::read(spelled)?;
    let len = s.len() + name.len() + 19;
    check(
        is_known(kind),
        sheet_search::has(&sheet, &name),
        len,
        out.len(),
    )?;
    // kind is below 256: it was tested above
    append_record::put_grown(s, &name, kind as u8, first, second, out);
    Ok(len)
}
