// The words of cases: bytes up to one that ends them, in which \x and two hexadecimal digits stand for a byte.
#![tactic(auto)]

ghost use Rattle.std.specs.Prelude.{ℕ, List, ◌≡◌, ◌<◌, ◌≤◌, length, IsSome};

use arrayvec::ArrayVec;
use std::fs::File;
use std::io::{self, Read};
use std::marker::Model;
use std::rt::Files;

// As many bytes as all cases may have; a sheet has fewer.
pub const ROOM: usize = 262144;

// The bytes of all cases, of a word or of a sheet.
pub type Room = ArrayVec<u8, ROOM>;

// Room that a case lends, with a dot at every place.
pub fn dots() -> [u8; ROOM] {
    [b'.'; ROOM]
}

// The value of a hexadecimal digit in lower case. `to_digit` will not do: here every other byte has a value too.
fn digit(b: u8) -> u8
    ensures { result < 16 }
{
    match b {
        b'a'.. => (b - b'a' + 10) % 16,
        _ => b % 16,
    }
}

// A number with a digit more, or as it was where it would be too large.
fn with_digit(n: u64, digit: u8) -> u64 {
    n.checked_mul(10)
        .and_then(|tens| tens.checked_add(u64::from(digit)))
        .unwrap_or(n)
}

// What is left of the cases; a contract sees its bytes.
#[derive(Drop)]
pub struct Words<'a> {
    rest: &'a [u8],
}

impl<'a> Model for Words<'a> {
    ghost Value = { List ℕ };

    ghost view = { λ w. w.rest.now };
}

impl<'a> Words<'a> {
    pub fn new(rest: &'a [u8]) -> Self
        ensures { result ≡ rest.now }
    {
        Words { rest }
    }

    // The first letter of a word.
    pub fn letter(&mut self) -> Option<u8>
        ensures any { length self.new ≤ length self.old }
        ensures some { IsSome result → length self.new < length self.old }
    {
        let (letter, rest) = self.rest.split_first()?;
        self.rest = rest;
        Some(*letter)
    }

    // The next byte of a word that ends at a byte `stop`, if it has one more.
    fn byte(&mut self, stop: u8) -> Option<u8>
        ensures any { length self.new ≤ length self.old }
        ensures some { IsSome result → length self.new < length self.old }
    {
        match self.rest {
            [] => None,
            [b, rest @ ..] if *b == stop => {
                self.rest = rest;
                None
            }
            [b'\\', _, high, low, rest @ ..] => {
                self.rest = rest;
                Some(digit(*high) * 16 + digit(*low))
            }
            [b, rest @ ..] => {
                self.rest = rest;
                Some(*b)
            }
        }
    }

    // The bytes of a word, in place of what a room had. Those that it has no room for are left out.
    pub fn word(&mut self, stop: u8, room: &mut Room)
        ensures { length self.new ≤ length self.old }
    {
        room.clear();
        while let Some(b) = self.byte(stop) {
            let _ = room.try_push(b);
        }
    }

    // The first byte of a word that ends at a byte `stop`; the others are left out.
    pub fn beginning(&mut self, stop: u8) -> Option<u8>
        ensures { length self.new ≤ length self.old }
    {
        let first = self.byte(stop)?;
        while self.byte(stop).is_some() {}
        Some(first)
    }

    // The number of a word, if its bytes are digits.
    pub fn number(&mut self, stop: u8) -> u64
        ensures { length self.new ≤ length self.old }
    {
        let mut n = 0;
        while let Some(b) = self.byte(stop) {
            n = with_digit(n, b % 16);
        }
        n
    }

    // How many bytes of a room a case lends: no more than it has, whatever the word is.
    pub fn size(&mut self) -> usize
        ensures rest { length self.new ≤ length self.old }
        ensures bound { result ≤ ROOM }
    {
        (self.number(b' ') % (ROOM as u64 + 1)) as usize
    }

    // A sheet, its bytes or @ and the name of a file that has them, in place of what a room had.
    pub fn sheet(&mut self, rt: &impl Files, room: &mut Room)
        ensures { length self.new ≤ length self.old }
    {
        self.word(b' ', room);
        if let [b'@', name @ ..] = room.as_slice() {
            let file = open_named(rt, name);
            room.clear();
            if let Some(file) = file {
                // what was read before a failure counts; no more is asked for than fits the room
                let _ = io::copy(&mut file.take(ROOM as u64), room);
            }
        }
    }
}

// Opens the file of a name, if it can be opened.
fn open_named<F: Files>(rt: &F, name: &[u8]) -> Option<F::File> {
    let path = str::from_utf8(name).ok()?;
    File::open(rt, path).ok()
}
