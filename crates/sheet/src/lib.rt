// The state sheet: a walk over its records, and an index of their names.
#![tactic(auto)]

ghost use Rattle.std.specs.Prelude.{◌≡◌, ◌<◌, ◌≤◌, length, slice_get, Some, IfOk, IsOk};
ghost use Rattle.refusal.specs.Numbered.{number_or_0};
ghost use Rattle.distinct.specs.Chain.{Blank};
ghost use Rattle.sheet.specs.Index.{Indexed, Named};
ghost use Rattle.sheet.specs.Sheet.{Accepted, number_of, sheet_of, records_of};
ghost use Rattle.sheet.specs.Structure.{Walked};

use distinct::Index;
use refusal::Refusal;
use sheet_reader::Reader;
use sheet_record::Record;
use std::marker::Model;

// Walks over the records, keeps the place of each length byte, and gives their count.
fn keep_places(reader: &mut Reader, starts: &mut [u16; 3449]) -> usize
    requires { (length reader.old.sheet.now ≤ 65536) × (reader.old.at ≡ 7) }
    ensures sheet { reader.new.sheet ≡ reader.old.sheet }
    ensures walked { Walked reader.old.sheet.now reader.old.left reader.new.at reader.new.left result starts.new }
{
    // the reader gives a place or ends; over the places of the array the count would stand in the same lines
    let mut count: usize = 0;
    while let Some(at) = reader.step() {
        // a place in 65,536 bytes at most
        starts[count] = at as u16;
        count += 1;
    }
    count
}

// The first condition that refuses a sheet: structure first, then names. Where none does, the room becomes the sheet's index.
#[tactic(auto, using(crate::proofs::Accept::head_refused))]
fn fill(s: &[u8], room: &mut Index) -> Result<(), Refusal>
    requires { Blank room.old }
    ensures value { number_or_0 result ≡ number_of (sheet_of s.now) }
    ensures indexed { IsOk result → Indexed s.now room.new.starts room.new.heads room.new.next }
{
    sheet_head::check(s)?;
    let mut reader = Reader::new(s, sheet_record::number(s, 5, 2) as usize);
    let count = keep_places(&mut reader, &mut room.starts);
    let end = reader.end();
    if room.repeats(s, count) {
        return Err(Refusal::NameTwice);
    }
    end
}

// A sheet that is accepted, with the index of its names in lent room.
#[derive(Drop)]
pub struct Sheet<'a> {
    bytes: &'a [u8],
    index: &'a Index,
}

impl<'a> Model for Sheet<'a> {
    ghost use Rattle.std.specs.Prelude.{List, ℕ};
    ghost use Rattle.sheet.specs.Index.{Indexed};

    ghost Value = { List ℕ };

    ghost view = { λ t. t.bytes.now };

    ghost invariant = { λ t. Indexed t.bytes.now t.index.now.starts t.index.now.heads t.index.now.next };
}

impl<'a> Sheet<'a> {
    // A sheet whose index is at hand.
    pub fn over(bytes: &'a [u8], index: &'a Index) -> Self
        requires { Indexed bytes.now index.now.starts index.now.heads index.now.next }
        ensures { result ≡ bytes.now }
    {
        Sheet { bytes, index }
    }

    // The sheet's bytes.
    pub fn bytes(&self) -> &'a [u8]
        ensures value { result.now ≡ self.now }
        ensures accepted { Accepted self.now }
    {
        self.bytes
    }

    // How many records the sheet has, by two bytes of it.
    #[tactic(auto, using(crate::proofs::Counted::accepted_count, crate::proofs::Places::seven))]
    pub fn count(&self) -> usize
        ensures value { result ≡ length (records_of (sheet_of self.now)) }
        ensures accepted { Accepted self.now }
    {
        sheet_record::number(self.bytes, 5, 2) as usize
    }

    // A record by its number, from 0.
    pub fn record(&self, i: usize) -> Record
        requires { i < length (records_of (sheet_of self.now)) }
        ensures { slice_get (records_of (sheet_of self.now)) i ≡ Some result }
    {
        sheet_record::entry_at(self.bytes, usize::from(self.index.starts[i]))
    }

    // The number of the record that has a name, where one has.
    pub fn place_of(&self, name: &[u8]) -> Option<usize>
        ensures value { Named self.now (records_of (sheet_of self.now)) name.now result }
        ensures accepted { Accepted self.now }
    {
        self.index.place_of(self.bytes, name)
    }
}

// The first condition that refuses a sheet, or the sheet with its index in the room.
pub fn index<'a>(bytes: &'a [u8], room: &'a mut Index) -> Result<Sheet<'a>, Refusal>
    requires { Blank room.old }
    ensures value { number_or_0 result ≡ number_of (sheet_of bytes.now) }
    ensures sheet { IfOk result (λ t. t ≡ bytes.now) }
{
    fill(bytes, room)?;
    Ok(Sheet::over(bytes, room))
}

// The first condition that refuses a sheet, if any does.
pub fn check(s: &[u8]) -> Result<(), Refusal>
    ensures { number_or_0 result ≡ number_of (sheet_of s.now) }
{
    fill(s, &mut Index::blank())
}
