// A line, and the listing in parts, written to lent room.
#![tactic(auto)]

ghost use Rattle.std.specs.Prelude.{◌≡◌, ◌<◌, ◌≤◌, length, drop};
ghost use Rattle.refusal.specs.Numbered.{numbered};
ghost use Rattle.air.specs.Choices.{chosen};
ghost use Rattle.calculator.specs.Search.{search_by};
ghost use Rattle.line.specs.Line.{line};
ghost use Rattle.octets.specs.Room.{fitting, written, outcome_of};
ghost use Rattle.name_list.specs.Lines.{lines_of};
ghost use Rattle.report.specs.Listing.{lines_by};
ghost use Rattle.report.specs.Steps.{NextLine, Part};

use line::Line;
use refusal::Refusal;
use sheet::Sheet;

// The line of a name of the list, and the place of the next name.
#[derive(Drop)]
pub struct Built {
    pub line: Line,
    pub next: usize,
}

// How far a part came: the place of the first line that is left, and the bytes that were written.
#[derive(Clone, Copy)]
pub struct Progress {
    pub next: usize,
    pub len: usize,
}

// The line for a spelled name, in lent room.
pub fn line(sheet: &[u8], spelled: &[u8], out: &mut [u8]) -> Result<usize, Refusal>
    ensures value { numbered result ≡ outcome_of (fitting (length out.old) (line spelled.now (search_by chosen sheet.now spelled.now))) }
    ensures out_after { out.new ≡ written (fitting (length out.old) (line spelled.now (search_by chosen sheet.now spelled.now))) out.old }
{
    let answer = calculator::search(sheet, spelled);
    line_room::put_line(&line::line_of(spelled, answer), out)
}

// The line of the name that starts at a place of the list, under an accepted sheet.
pub fn next_line(sheet: &Sheet, list: &[u8], start: usize) -> Built
    requires { start < length list.now }
    ensures { NextLine sheet.now list.now start result.next result.line.items }
{
    let end = name_list::line_end(list, start);
    let spelled = &list[start..end];
    Built {
        line: line::line_of(spelled, calculator::answer_in(sheet, spelled)),
        next: end + 1,
    }
}

// Writes the lines of a list from a place on, while they fit the room. A room of the 192 bytes that a line is built in takes a line at
// least, so that the parts come to an end, and one that is long enough for all lines takes all.
pub fn part(sheet: &Sheet, list: &[u8], start: usize, out: &mut [u8]) -> Progress
    ensures part { Part sheet.now list.now out.old out.new start result.next result.len }
    ensures start_lt_next { start < length list.now → 192 ≤ length out.old → start < result.next }
    ensures list_len_bound { length (lines_by chosen sheet.now (lines_of (drop start list.now))) ≤ length out.old → length list.now ≤ result.next }
{
    // from line to line, as far as the room goes
    let mut from = start;
    let mut at = 0;
    while from < list.len() {
        let built = next_line(sheet, list, from);
        if out.len() - at < built.line.len() {
            break;
        }
        at = line_room::append(&built.line, out, at);
        from = built.next;
    }
    Progress {
        next: from,
        len: at,
    }
}
