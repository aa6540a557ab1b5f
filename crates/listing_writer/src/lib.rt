// Writes the listing of a list under a sheet to standard output, through a lent room.
#![tactic(auto)]

ghost use Rattle.std.specs.Prelude.{[], ◌≡◌, length, ◌≤◌};
ghost use Rattle.air.specs.Choices.{chosen};
ghost use Rattle.report_refusal.specs.Refusal.{refusal_of};
ghost use Rattle.report.specs.Listing.{listing_by};
ghost use Rattle.listing_output.specs.Output.{Reached, Wrote};

use distinct::Index;
use listing_output::Written;
use report_refusal::Begun;
use sheet::Sheet;
use std::io::Write;

// Writes the lines of a list under an accepted sheet, part by part through a room.
fn write_parts<W: Write>(
    rt: &impl Eprint,
    output: &mut W,
    sheet: &Sheet,
    list: &[u8],
    out: &mut [u8],
) -> Written
    requires none_refused { refusal_of sheet.now list.now ≡ [] }
    requires in_bounds { (192 ≤ length out.old) × (length out.old ≤ 65536) }
    ensures reached { Reached (length (listing_by chosen sheet.now list.now)) result }
    ensures bytes { Wrote (W.contents output.old) (W.contents output.new) (listing_by chosen sheet.now list.now) result }
{
    let bytes = sheet.bytes();
    // how far a part comes is told by the room
    let mut start = 0;
    let mut written = listing_output::nothing();
    while start < list.len() {
        let part = report::part(sheet, list, start, out);
        let n = part.len;
        written = listing_output::write_next(rt, output, bytes, list, written, &out[..n])?;
        start = part.next;
    }
    Ok(written)
}

// Writes the listing of a list under a sheet through a room: the line of a refusal, or all parts.
pub fn write_listing<W: Write>(
    rt: &impl Eprint,
    output: &mut W,
    sheet: &[u8],
    list: &[u8],
    out: &mut [u8],
) -> Written
    requires { (192 ≤ length out.old) × (length out.old ≤ 65536) }
    ensures reached { Reached (length (listing_by chosen sheet.now list.now)) result }
    ensures bytes { Wrote (W.contents output.old) (W.contents output.new) (listing_by chosen sheet.now list.now) result }
{
    let mut room = Index::blank();
    match report_refusal::begin(sheet, &mut room, list, out) {
        Ok(Begun::Lines(accepted)) => write_parts(rt, output, &accepted, list, out),
        Ok(Begun::Refused(n)) => {
            let nothing = listing_output::nothing();
            listing_output::write_next(rt, output, sheet, list, nothing, &out[..n])
        }
        // the line of a refusal fits the room
        Err(_) => unreachable!(),
    }
}
