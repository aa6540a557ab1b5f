// What C gets of records, remarks, texts and marks: flat structs.
#![tactic(auto)]

ghost use Rattle.std.specs.Prelude.{◌≡◌};
ghost use Rattle.refusal.specs.Numbered.{number_or_0};
ghost use Rattle.flat_parts.specs.Flat.{flat_found, flat_remark, flat_text, flat_mark};

use mark::Point;
use refusal::Refusal;
use sheet_record::Record;
use sheet_remark::Part;

// C's structs: a refusal's number or 0, a part of the sheet as its start and length.
#[repr(C)]
#[derive(Clone, Copy)]
pub struct CRecord {
    pub number: u32,
    pub kind: u32,
    pub first: u64,
    pub second: u64,
    pub start: usize,
    pub length: usize,
}

#[repr(C)]
#[derive(Clone, Copy)]
pub struct CPart {
    pub number: u32,
    pub start: usize,
    pub length: usize,
}

#[repr(C)]
#[derive(Clone, Copy)]
pub struct CText {
    pub number: u32,
    pub length: usize,
}

#[repr(C)]
#[derive(Clone, Copy)]
pub struct CPoint {
    pub across: f64,
    pub up: f64,
}

#[repr(C)]
#[derive(Clone, Copy)]
pub struct CMark {
    pub blank: u32,
    pub point: CPoint,
}

// The number of a refusal, or 0.
pub fn flatten_check(checked: Result<(), Refusal>) -> u32
    ensures { result ≡ number_or_0 checked }
{
    match checked {
        Err(refusal) => refusal.number(),
        Ok(()) => 0,
    }
}

// A text's length or refusal as C takes it.
#[tactic(auto, unfolding(crate::specs::Flat::flat_text))]
pub fn flatten_text(text: Result<usize, u32>) -> CText
    ensures { result ≡ flat_text text }
{
    match text {
        Err(number) => CText { number, length: 0 },
        Ok(length) => CText { number: 0, length },
    }
}

// A mark as C takes it.
#[tactic(auto, unfolding(crate::specs::Flat::flat_mark))]
pub fn flatten_mark(mark: Result<Point, u32>) -> CMark
    ensures { result ≡ flat_mark mark }
{
    match mark {
        Ok(point) => CMark {
            blank: 0,
            point: CPoint {
                across: point.across,
                up: point.up,
            },
        },
        Err(number) => CMark {
            blank: number,
            point: CPoint {
                across: 0.0,
                up: 0.0,
            },
        },
    }
}

// A found record as C takes it.
#[tactic(auto, unfolding(crate::specs::Flat::flat_found))]
pub fn flatten_found(found: Result<Record, u32>) -> CRecord
    ensures { result ≡ flat_found found }
{
    match found {
        Err(number) => CRecord {
            number,
            kind: 0,
            first: 0,
            second: 0,
            start: 0,
            length: 0,
        },
        Ok(record) => CRecord {
            number: 0,
            kind: u32::from(record.kind),
            first: record.first,
            second: record.second,
            start: record.start,
            length: record.len,
        },
    }
}

// A remark as C takes it.
#[tactic(auto, unfolding(crate::specs::Flat::flat_remark))]
pub fn flatten_remark(remark: Result<Part, u32>) -> CPart
    ensures { result ≡ flat_remark remark }
{
    match remark {
        Err(number) => CPart {
            number,
            start: 0,
            length: 0,
        },
        Ok(part) => CPart {
            number: 0,
            start: part.start,
            length: part.len,
        },
    }
}
