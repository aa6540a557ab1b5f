// Runs vectors and writes a line for each.
// Standard input has a case a line: what is done, its words with one space between, and a label that the answer repeats.
//
//   state KIND FIRST SECOND     a state's answer, in columns: see `columns` of vector_answers
//   plus FROM STEP COUNT LABEL  the weights of a plus transition at q and at -q, COUNT times: q is FROM units, then STEP more
//   minus FROM STEP COUNT LABEL the same of a minus transition, where q is not below 1.9
//   read SPELLING LABEL         the name's bytes in decimal, and the name as written
//   write ROOM NAME LABEL       how many bytes were written, and between < and > the whole room
//   check SHEET LABEL           the refusal's number or 0
//   find SHEET SPELLING LABEL   the record, its remark's place, and between < and > the part of the sheet that holds the name
//   forward ROOM SHEET LABEL    how many bytes were written, and the whole room: ROOM bytes, at most 262144, each a dot before
//   back ROOM SHEET LABEL       the same of the way back
//   begin SHEET LABEL           the refusal's number or 0, and the walk: how many records it has given and how many it counted
//   next ROOM GIVEN COUNT SHEET LABEL
//                               a step of a walk: the refusal's number or 0, the line's length, the walk, and between < and > the
//                               whole room, as above, with / for the line's newline
//   add ROOM SHEET SPELLING KIND FIRST SECOND LABEL
//                               how many bytes were written, and the whole room, as above
//   during SHEET ACTS LABEL     what each act gives, then the whole sheet; an act is begin, next or add:SPELLING:KIND:FIRST:SECOND,
//                               with a comma between two: the walk is the one last begun, the sheet what the adds made of it
//
// In a word \x and two hexadecimal digits stand for a byte. A sheet is its bytes, or @ and the name of a file that has them.
#![tactic(auto)]

ghost use Rattle.std.specs.Prelude.{length, ◌≤◌};

use refusal::Refusal;
use sheet_record::Record;
use sheet_remark::Part;
use std::io::{self, Read};
use std::rt::Files;
use vector_answers::{answer, between, column, outcome, refused, say, whole};
use vector_names::label;
use vector_words::{ROOM, Room, Words, dots};

// ---- cases: each takes its words, and the label that ends its line

fn state(rt: &impl Print, words: &mut Words<'_>)
    ensures { length words.new ≤ length words.old }
{
    let kind = words.number(b' ');
    let first = words.number(b' ');
    let second = words.number(b'\n');
    let _ = print!(rt; "{kind} {first} {second}");
    // a kind is any byte
    answer(rt, evaluate::evaluate((kind % 256) as u8, first, second));
}

fn check(rt: &(impl Files + Print), words: &mut Words<'_>)
    ensures { length words.new ≤ length words.old }
{
    let mut sheet = Room::new();
    words.sheet(rt, &mut sheet);
    label(rt, words);
    column(
        rt,
        sheet::check(&sheet).map_or_else(Refusal::number, |()| 0),
    );
}

// What a search finds.
fn says(rt: &impl Print, found: Result<Record, Refusal>) {
    match found {
        Ok(r) => {
            let _ = print!(rt;
                " kind {} first {} second {} at {}",
                r.kind, r.first, r.second, r.start
            );
        }
        Err(refusal) => refused(rt, refusal.number()),
    }
}

// Where a remark stands.
fn tells(rt: &impl Print, remark: Result<Part, u32>) {
    if let Ok(p) = remark {
        let _ = print!(rt; " remark at {} length {}", p.start, p.len);
    }
}

// A search by a spelled name, and the part of the sheet that holds the name.
fn find(rt: &(impl Files + Print), words: &mut Words<'_>)
    ensures { length words.new ≤ length words.old }
{
    let mut sheet = Room::new();
    let mut spelled = Room::new();
    words.sheet(rt, &mut sheet);
    words.word(b' ', &mut spelled);
    label(rt, words);
    says(rt, calculator::locate(&sheet, &spelled));
    tells(rt, calculator::found_remark(&sheet, &spelled));
    between(rt, calculator::found_name(&sheet, &spelled));
}

// A sheet in the other version, in lent room, and the whole room.
fn convert<F: Fn(&[u8], &mut [u8]) -> Result<usize, Refusal>>(
    rt: &(impl Files + Print),
    words: &mut Words<'_>,
    way: F,
)
    requires { F.IsAlwaysCallable way }
    ensures { length words.new ≤ length words.old }
{
    let mut out = dots();
    let mut sheet = Room::new();
    let n = words.size();
    words.sheet(rt, &mut sheet);
    label(rt, words);
    outcome(rt, way(&sheet, &mut out[..n]));
    whole(rt, &out[..n]);
}

// Runs a case, which its first letter tells, or of b and f the first two.
fn case(rt: &(impl Files + Print), letter: u8, words: &mut Words<'_>)
    ensures { length words.new ≤ length words.old }
{
    match (letter, words.beginning(b' ')) {
        (b's', _) => state(rt, words),
        (b'p', _) => vector_weights::plus(rt, words),
        (b'm', _) => vector_weights::minus(rt, words),
        (b'r', _) => vector_names::read(rt, words),
        (b'w', _) => vector_names::write(rt, words),
        (b'c', _) => check(rt, words),
        (b'f', Some(b'o')) => convert(rt, words, convert::forward),
        (b'f', _) => find(rt, words),
        (b'b', Some(b'e')) => vector_growing::begin(rt, words),
        (b'b', _) => convert(rt, words, convert::back),
        (b'n', _) => vector_growing::next(rt, words),
        (b'a', _) => vector_growing::add(rt, words),
        (b'd', _) => vector_growing::during(rt, words),
        _ => label(rt, words),
    }
}

fn main(rt: HostRuntime) {
    let mut room = Room::new();
    // what was read before a failure counts; no more is asked for than fits the room
    let _ = io::copy(&mut rt.stdin().take(ROOM as u64), &mut room);
    let mut words = Words::new(&room);
    while let Some(letter) = words.letter() {
        case(&rt, letter, &mut words);
        say(&rt, b"\n");
    }
}
