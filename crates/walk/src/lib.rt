// A walk over the records of a sheet, to which states may be added meanwhile.
#![tactic(auto)]

ghost use Rattle.std.specs.Prelude.{◌≡◌, ◌<◌, length, IfOk};
ghost use Rattle.refusal.specs.Numbered.{numbered};
ghost use Rattle.octets.specs.Room.{fitting, written, outcome_of};
ghost use Rattle.air.specs.Choices.{chosen};
ghost use Rattle.sheet.specs.Sheet.{sheet_of};
ghost use Rattle.walk.specs.Parts.{Named, advanced};
ghost use Rattle.walk.specs.Walk.{begun_by, line_of_record, stepped, step_of};

use distinct::Index;
use refusal::Refusal;
use sheet_record::Record;

// How many records a walk has given, and how many the sheet had when it began.
#[repr(C)]
#[derive(Clone, Copy)]
pub struct Walk {
    pub given: u32,
    pub count: u32,
}

// A walk that begins, or the number of the sheet's refusal. C is given it as it is, so a number stands beside the walk.
#[repr(C)]
#[derive(Clone, Copy)]
pub struct Begun {
    pub number: u32,
    pub walk: Walk,
}

// A step: a refusal's number, or the length of a line, which is 0 where no record is left; and the walk after it.
// C is given it as it is.
#[repr(C)]
#[derive(Clone, Copy)]
pub struct Step {
    pub number: u32,
    pub length: usize,
    pub walk: Walk,
}

// Begins a walk over the records that a sheet has now, whose count is two bytes of it.
#[tactic(auto, using(crate::proofs::Steps::begun_refused, crate::proofs::Steps::begun_counted))]
pub fn begin(sheet: &[u8]) -> Begun
    ensures { result ≡ begun_by (sheet_of sheet.now) }
{
    match sheet::check(sheet) {
        Err(refusal) => Begun {
            number: refusal.number(),
            walk: Walk { given: 0, count: 0 },
        },
        Ok(()) => Begun {
            number: 0,
            walk: Walk {
                given: 0,
                count: sheet_record::number(sheet, 5, 2) as u32,
            },
        },
    }
}

// The listing line of a record of a sheet, in lent room.
#[tactic(auto, using(crate::proofs::Steps::name_is, crate::proofs::Steps::name_sized))]
fn put_record(sheet: &[u8], r: Record, out: &mut [u8]) -> Result<usize, Refusal>
    requires { Named sheet.now r }
    ensures value { numbered result ≡ outcome_of (fitting (length out.old) (line_of_record chosen sheet.now r)) }
    ensures out_after { out.new ≡ written (fitting (length out.old) (line_of_record chosen sheet.now r)) out.old }
{
    let name = &sheet[r.start..r.start + r.len];
    let answer = evaluate::evaluate(r.kind, r.first, r.second);
    line_room::put_line(&line::line_of_name(name, answer), out)
}

// The next record's listing line, in lent room; nothing, of length 0, after the walk's last record or the sheet's.
#[tactic(auto, using(crate::proofs::Steps::own_value, crate::proofs::Steps::own_room))]
fn put_next(sheet: &[u8], walk: Walk, out: &mut [u8]) -> Result<usize, Refusal>
    ensures value { numbered result ≡ outcome_of (stepped chosen sheet.now walk (length out.old)) }
    ensures out_after { out.new ≡ written (stepped chosen sheet.now walk (length out.old)) out.old }
    ensures advances { IfOk result (λ n. 0 < n → walk.given < walk.count) }
{
    let mut room = Index::blank();
    let indexed = sheet::index(sheet, &mut room)?;
    if walk.count <= walk.given {
        return Ok(0);
    }
    match sheet_walk::record_in(&indexed, walk.given as usize) {
        Err(_) => Ok(0),
        Ok(record) => put_record(sheet, record, out),
    }
}

// The step by what became of the line: the walk goes on where one was put.
fn step_after(walk: Walk, put: Result<usize, Refusal>) -> Step
    requires { IfOk put (λ n. 0 < n → walk.given < walk.count) }
    ensures { result ≡ advanced walk (numbered put) }
{
    match put {
        Err(refusal) => Step {
            number: refusal.number(),
            length: 0,
            walk,
        },
        Ok(0) => Step {
            number: 0,
            length: 0,
            walk,
        },
        Ok(length) => Step {
            number: 0,
            length,
            walk: Walk {
                given: walk.given + 1,
                count: walk.count,
            },
        },
    }
}

// Gives the next record's listing line, in lent room.
#[tactic(auto, using(crate::proofs::Steps::told))]
pub fn take_step(sheet: &[u8], walk: Walk, out: &mut [u8]) -> Step
    ensures value { result ≡ step_of walk (stepped chosen sheet.now walk (length out.old)) }
    ensures out_after { out.new ≡ written (stepped chosen sheet.now walk (length out.old)) out.old }
{
    step_after(walk, put_next(sheet, walk, out))
}
