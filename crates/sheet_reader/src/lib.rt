// The sheet reader, which goes from one record to the next.
#![tactic(auto)]

ghost use Rattle.std.specs.Prelude.{◌≡◌};
ghost use Rattle.refusal.specs.Numbered.{number_or_0};
ghost use Rattle.sheet_record.specs.Layout.{layout_in};
ghost use Rattle.sheet_record.specs.Front.{end_at};
ghost use Rattle.sheet_reader.specs.Reading.{place_given, stepped};

use refusal::Refusal;

// The sheet reader: the sheet, the place of its next record, and how many are left.
#[derive(Clone, Copy)]
pub struct Reader<'a> {
    pub sheet: &'a [u8],
    pub at: usize,
    pub left: usize,
}

impl<'a> Reader<'a> {
    // A reader at a place of a sheet, where so many records are left.
    pub fn at(sheet: &'a [u8], at: usize, left: usize) -> Self
        ensures { (result.sheet ≡ sheet.entry) × (result.at ≡ at) × (result.left ≡ left) }
    {
        Reader { sheet, at, left }
    }

    // A reader behind a sheet's header, where so many records are announced.
    pub fn new(sheet: &'a [u8], records: usize) -> Self
        ensures { (result.sheet ≡ sheet.entry) × (result.at ≡ 7) × (result.left ≡ records) }
    {
        Reader::at(sheet, 7, records)
    }

    // Goes behind the record that stands where the reader is, and gives its place; stays where none stands.
    #[tactic(auto, using(sheet_record::proofs::Steps::stands_left))]
    pub fn step(&mut self) -> Option<usize>
        ensures place { result ≡ place_given self.old }
        ensures reader { self.new ≡ stepped self.old }
    {
        let at = self.at;
        if !sheet_record::stands_at(self.sheet, at, self.left) {
            return None;
        }
        self.at = sheet_record::past_at(self.sheet, at, self.left);
        self.left -= 1;
        Some(at)
    }

    // Whether the sheet ends where the reader stays, or why not.
    pub fn end(&self) -> Result<(), Refusal>
        ensures { number_or_0 result ≡ end_at (layout_in self.now.sheet.now) self.now.sheet.now self.now.at self.now.left }
    {
        sheet_record::end_at(self.sheet, self.at, self.left)
    }
}
