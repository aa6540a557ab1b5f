// Reading the two inputs to their ends, into lent rooms.
#![tactic(auto)]

ghost use Rattle.std.specs.Prelude.{◌≡◌, ◌+◌, ◌<◌, ◌≤◌, length, take, drop};
ghost use Rattle.std.specs.Io.KnownBytes.{Consumes};
ghost use Rattle.listing_input.specs.Prefix.{IsPrefixLen};

use complaint::complain;
use std::fs::File;
use std::io::Read;
use std::rt::Files;

// What came of an input: the bytes in front of its room, and how many the last read gave. It was read until a read gave nothing,
// unless it is longer than a sheet or a list may be. Only this crate makes one.
#[derive(Clone, Copy)]
pub struct Input {
    pub len: usize,
    last: usize,
    ghost to_end: { len ≤ 65536 → last ≡ 0 },
}

// A byte more than a sheet or a list may have, so that a longer one is seen.
const ROOM: usize = 65537;

// A slice with a length beside it, since `Read` fills a slice: an ArrayVec has no free places to lend.
pub fn room() -> [u8; ROOM]
    ensures { 65537 ≡ length result }
{
    [0; ROOM]
}

// Reads until a read gives nothing, or the room is full. One that fails counts as one that gives nothing, and standard error says so.
fn read_to_end<I: Read>(rt: &impl Eprint, input: &mut I, complaint: &str, room: &mut [u8]) -> Input
    requires { 65536 < length room.old }
    ensures prefix_len { IsPrefixLen result.len room.new }
    ensures bytes { Consumes (I.remaining input.old) (I.remaining input.new) (take result.len room.new) }
{
    let mut len = 0;
    loop {
        let last = input.read(&mut room[len..]).unwrap_or_else(|error| {
            complain(rt, complaint, error);
            0
        });
        len += last;
        if last == 0 || len == room.len() {
            return Input { len, last };
        }
    }
}

// Reads the sheet's file. One that cannot be opened counts as empty, and standard error says so.
pub fn read_sheet(rt: &(impl Files + Eprint), room: &mut [u8]) -> Input
    requires { 65536 < length room.old }
    ensures prefix_len { IsPrefixLen result.len room.new }
{
    match File::open(rt, "sheet.eas") {
        Ok(mut file) => read_to_end(rt, &mut file, "listing: sheet.eas: cannot be read", room),
        Err(error) => {
            complain(rt, "listing: sheet.eas: cannot be opened", error);
            Input { len: 0, last: 0 }
        }
    }
}

// Reads the names.
pub fn read_list<I: Read>(rt: &impl Eprint, input: &mut I, room: &mut [u8]) -> Input
    requires { 65536 < length room.old }
    ensures prefix_len { IsPrefixLen result.len room.new }
    ensures bytes { Consumes (I.remaining input.old) (I.remaining input.new) (take result.len room.new) }
{
    read_to_end(rt, input, "listing: standard input: cannot be read", room)
}
