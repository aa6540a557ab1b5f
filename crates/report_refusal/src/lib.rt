// The line of a refused sheet or list, with which a listing begins.
#![tactic(auto)]

ghost use Rattle.std.specs.Prelude.{◌≡◌, ◌≤◌, length};
ghost use Rattle.octets.specs.Room.{fitting, written, outcome_of};
ghost use Rattle.distinct.specs.Chain.{Blank};
ghost use Rattle.report_refusal.specs.Refusal.{refusal_of};
ghost use Rattle.report_refusal.specs.Begun.{begun_length, Lines};

use distinct::Index;
use refusal::Refusal;
use sheet::Sheet;

// How a listing begins: with the line of a refused sheet or list, of so many bytes, which is all of it, or with an accepted sheet, whose lines
// follow in parts.
#[derive(Drop)]
pub enum Begun<'a> {
    Refused(usize),
    Lines(Sheet<'a>),
}

// Begins a listing: indexes the sheet, and writes the line of a refused sheet or list to lent room, for which 71 bytes are enough.
#[tactic(auto, using(crate::proofs::Cases::cases))]
pub fn begin<'a>(
    sheet: &'a [u8],
    room: &'a mut Index,
    list: &[u8],
    out: &mut [u8],
) -> Result<Begun<'a>, Refusal>
    requires { Blank room.old }
    ensures value { begun_length result ≡ outcome_of (fitting (length out.old) (refusal_of sheet.now list.now)) }
    ensures out_after { out.new ≡ written (fitting (length out.old) (refusal_of sheet.now list.now)) out.old }
    ensures list_len_bound { length (refusal_of sheet.now list.now) ≤ 71 }
    ensures lines { Lines sheet.now result }
{
    let sheet = match sheet::index(sheet, room) {
        Ok(sheet) => sheet,
        Err(refusal) => {
            let n = line_room::put_refused(b"sheet", refusal.number(), out)?;
            return Ok(Begun::Refused(n));
        }
    };
    if 65536 < list.len() {
        let n = line_room::put_refused(b"list", Refusal::ListTooLong.number(), out)?;
        return Ok(Begun::Refused(n));
    }
    Ok(Begun::Lines(sheet))
}
