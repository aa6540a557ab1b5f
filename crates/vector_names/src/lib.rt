// The cases of spellings and names: each takes its words, and the label that ends its line.
#![tactic(auto)]

ghost use Rattle.std.specs.Prelude.{length, ◌≤◌};

use vector_answers::{between, outcome, refused, say, values};
use vector_words::{Room, Words};

// Writes the label.
pub fn label(rt: &impl Print, words: &mut Words<'_>)
    ensures { length words.new ≤ length words.old }
{
    let mut label = Room::new();
    words.word(b'\n', &mut label);
    say(rt, &label);
    say(rt, b":");
}

// A name, and its spelling.
fn shows(rt: &impl Print, name: &[u8]) {
    values(rt, name);
    match name_writer::spelling(name) {
        Ok(spelling) => {
            say(rt, b", written ");
            say(rt, &spelling);
        }
        Err(refusal) => refused(rt, refusal.number()),
    }
}

pub fn read(rt: &impl Print, words: &mut Words<'_>)
    ensures { length words.new ≤ length words.old }
{
    let mut spelling = Room::new();
    words.word(b' ', &mut spelling);
    label(rt, words);
    match name_reader::read(&spelling) {
        Ok(name) => shows(rt, &name),
        Err(refusal) => refused(rt, refusal.number()),
    }
}

// A name written into lent room, and the whole room.
pub fn write(rt: &impl Print, words: &mut Words<'_>)
    ensures { length words.new ≤ length words.old }
{
    let mut room = Room::new();
    let mut name = Room::new();
    words.word(b' ', &mut room);
    words.word(b' ', &mut name);
    label(rt, words);
    outcome(rt, name_writer::spell(&name, &mut room));
    between(rt, &room);
}
