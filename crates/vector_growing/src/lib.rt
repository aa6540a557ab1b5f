// The cases of walks and adds: each takes its words, and the label that ends its line.
#![tactic(auto)]

ghost use Rattle.std.specs.Prelude.{length, ◌≤◌};

use refusal::Refusal;
use std::rt::Files;
use vector_answers::{between, column, outcome, refused, say, whole};
use vector_names::label;
use vector_words::{Room, Words, dots};
use walk::{Begun, Walk};

// The next number, of which 32 bits are taken.
fn short(words: &mut Words<'_>, stop: u8) -> u32
    ensures { length words.new ≤ length words.old }
{
    (words.number(stop) % (1 << 32)) as u32
}

// How many records a walk has given, and how many it counted.
fn walked(rt: &impl Print, walk: Walk) {
    let _ = print!(rt; ", walk {} {}", walk.given, walk.count);
}

// ---- a walk begins

// Writes how a walk begins, and gives the walk.
fn begins(rt: &impl Print, begun: Begun) -> Walk {
    column(rt, begun.number);
    walked(rt, begun.walk);
    begun.walk
}

pub fn begin(rt: &(impl Files + Print), words: &mut Words<'_>)
    ensures { length words.new ≤ length words.old }
{
    let mut sheet = Room::new();
    words.sheet(rt, &mut sheet);
    label(rt, words);
    begins(rt, walk::begin(&sheet));
}

// ---- a step of a walk

// Puts / where the listing line of so many bytes has its newline.
fn close_line(room: &mut [u8], n: usize) {
    if let Some(line) = room.get_mut(..n)
        && let Some(end) = line.last_mut()
        && *end == b'\n'
    {
        *end = b'/';
    }
}

// A step, and the whole room.
fn steps(rt: &impl Print, sheet: &[u8], walk: Walk, out: &mut [u8]) {
    let step = walk::take_step(sheet, walk, out);
    let _ = print!(rt; " {} {}", step.number, step.length);
    walked(rt, step.walk);
    close_line(out, step.length);
    between(rt, out);
}

pub fn next(rt: &(impl Files + Print), words: &mut Words<'_>)
    ensures { length words.new ≤ length words.old }
{
    let mut out = dots();
    let mut sheet = Room::new();
    let n = words.size();
    let given = short(words, b' ');
    let count = short(words, b' ');
    words.sheet(rt, &mut sheet);
    label(rt, words);
    steps(rt, &sheet, Walk { given, count }, &mut out[..n]);
}

// ---- an add

// A state that is typed, without its name.
#[derive(Clone, Copy)]
struct State {
    kind: u32,
    first: u64,
    second: u64,
}

// The next state, its three words with a byte between, up to one that ends it.
fn next_state(words: &mut Words<'_>, gap: u8, stop: u8) -> State
    ensures { length words.new ≤ length words.old }
{
    let kind = short(words, gap);
    let first = words.number(gap);
    let second = words.number(stop);
    State {
        kind,
        first,
        second,
    }
}

// A state under a name in a sheet with one more, in lent room.
fn added(sheet: &[u8], spelled: &[u8], state: State, out: &mut [u8]) -> Result<usize, Refusal> {
    append::add(sheet, spelled, state.kind, state.first, state.second, out)
}

pub fn add(rt: &(impl Files + Print), words: &mut Words<'_>)
    ensures { length words.new ≤ length words.old }
{
    let mut out = dots();
    let mut sheet = Room::new();
    let mut spelled = Room::new();
    let n = words.size();
    words.sheet(rt, &mut sheet);
    words.word(b' ', &mut spelled);
    let state = next_state(words, b' ', b' ');
    label(rt, words);
    outcome(rt, added(&sheet, &spelled, state, &mut out[..n]));
    whole(rt, &out[..n]);
}

// ---- adds during a walk

// A step of a walk, and its line.
fn steps_on(rt: &impl Print, sheet: &[u8], walk: Walk) -> Walk {
    let mut out = [b'.'; 192];
    let step = walk::take_step(sheet, walk, &mut out);
    if step.number != 0 {
        refused(rt, step.number);
    } else {
        close_line(&mut out, step.length);
        between(rt, out.get(..step.length).unwrap_or(&out));
    }
    step.walk
}

// Adds a state to a sheet.
fn grows(rt: &impl Print, sheet: &mut Room, spelled: &[u8], state: State) {
    let mut out = dots();
    let grown = added(sheet, spelled, state, &mut out);
    outcome(rt, grown);
    if let Ok(n) = grown {
        sheet.clear();
        let _ = sheet.try_extend_from_slice(out.get(..n).unwrap_or(&out));
    }
}

// Does an act, which its first letter tells, and gives the walk.
fn act(rt: &impl Print, letter: u8, acts: &mut Words<'_>, sheet: &mut Room, walk: Walk) -> Walk
    ensures { length acts.new ≤ length acts.old }
{
    let mut word = Room::new();
    match letter {
        b'a' => {
            acts.word(b':', &mut word);
            acts.word(b':', &mut word);
            let state = next_state(acts, b':', b',');
            grows(rt, sheet, &word, state);
            walk
        }
        b'b' => {
            acts.word(b',', &mut word);
            begins(rt, walk::begin(sheet))
        }
        _ => {
            acts.word(b',', &mut word);
            steps_on(rt, sheet, walk)
        }
    }
}

// Does all acts on a sheet.
fn all_acts(rt: &impl Print, mut acts: Words<'_>, sheet: &mut Room) {
    let mut walk = Walk { given: 0, count: 0 };
    while let Some(letter) = acts.letter() {
        walk = act(rt, letter, &mut acts, sheet, walk);
    }
}

pub fn during(rt: &(impl Files + Print), words: &mut Words<'_>)
    ensures { length words.new ≤ length words.old }
{
    let mut sheet = Room::new();
    let mut acts = Room::new();
    words.sheet(rt, &mut sheet);
    words.word(b' ', &mut acts);
    label(rt, words);
    all_acts(rt, Words::new(&acts), &mut sheet);
    whole(rt, &sheet);
}
