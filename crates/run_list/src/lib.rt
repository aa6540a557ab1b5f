// The whole listing of a run list, written to lent room.
#![tactic(auto)]

ghost use Rattle.std.specs.Prelude.{◌≡◌, length};
ghost use Rattle.refusal.specs.Numbered.{numbered};
ghost use Rattle.air.specs.Choices.{chosen};
ghost use Rattle.octets.specs.Room.{fitting, written, outcome_of};
ghost use Rattle.name_list.specs.Lines.{lines_of};
ghost use Rattle.report.specs.Listing.{lines_by, listing_by};

use distinct::Index;
use refusal::Refusal;
use report_refusal::Begun;
use sheet::Sheet;

// The length of all lines of a list under an accepted sheet, if they fit a room of so many bytes.
fn measure(sheet: &Sheet, list: &[u8], room: usize) -> Result<usize, Refusal>
    ensures { numbered result ≡ outcome_of (fitting room (lines_by chosen sheet.now (lines_of list.now))) }
{
    // from line to line, which are found as they are built
    let mut from = 0;
    let mut n = 0;
    while from < list.len() {
        let built = report::next_line(sheet, list, from);
        if room - n < built.line.len() {
            return Err(Refusal::RoomTooShort);
        }
        n += built.line.len();
        from = built.next;
    }
    Ok(n)
}

// All lines of a list under an accepted sheet, in lent room: they are measured before one is written.
fn put_lines(sheet: &Sheet, list: &[u8], out: &mut [u8]) -> Result<usize, Refusal>
    ensures value { numbered result ≡ outcome_of (fitting (length out.old) (lines_by chosen sheet.now (lines_of list.now))) }
    ensures out_after { out.new ≡ written (fitting (length out.old) (lines_by chosen sheet.now (lines_of list.now))) out.old }
{
    let n = measure(sheet, list, out.len())?;
    report::part(sheet, list, 0, out);
    Ok(n)
}

// The whole listing of a list under a sheet, in lent room.
#[tactic(auto, using(crate::proofs::Begins::short_line))]
pub fn listing(sheet: &[u8], list: &[u8], out: &mut [u8]) -> Result<usize, Refusal>
    ensures value { numbered result ≡ outcome_of (fitting (length out.old) (listing_by chosen sheet.now list.now)) }
    ensures out_after { out.new ≡ written (fitting (length out.old) (listing_by chosen sheet.now list.now)) out.old }
{
    let mut room = Index::blank();
    match report_refusal::begin(sheet, &mut room, list, out)? {
        Begun::Refused(n) => Ok(n),
        Begun::Lines(sheet) => put_lines(&sheet, list, out),
    }
}
