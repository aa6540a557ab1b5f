// A record of the state sheet: its fields by their places, and where the next one stands.
#![tactic(auto)]

ghost use Rattle.std.specs.Prelude.{◌≡◌, true, ◌+◌, ◌≤◌, eqb, length, get_or, drop};
ghost use Rattle.refusal.specs.Numbered.{number_or_0};
ghost use Rattle.octets.specs.Bytes.{number_at};
ghost use Rattle.sheet_record.specs.Layout.{layout_in};
ghost use Rattle.sheet_record.specs.Front.{Tailed, front_of, fault_of, behind, entry_at, stands_at, end_at};

use refusal::Refusal;

// One record: where its name stands, its kind byte and its two values. The kind stays the byte that C is shown.
#[derive(Clone, Copy, Debug, PartialEq, Eq)]
pub struct Record {
    pub start: usize,
    pub len: usize,
    pub kind: u8,
    pub first: u64,
    pub second: u64,
}

// The number in the k bytes from a place on, high byte first.
pub fn number(s: &[u8], at: usize, k: usize) -> u64
    requires { (k ≤ 8) × (at + k ≤ length s.now) }
    ensures { result ≡ number_at k s.now at }
{
    let digits = &s[at..at + k];
    let mut n: u64 = 0;
    for &b in digits {
        n = n * 256 + u64::from(b);
    }
    n
}

// Whether a sheet is of version 2, in which records have remarks.
#[tactic(auto, using(crate::proofs::Tails::low_other, crate::proofs::Tails::low_two))]
fn has_remarks(s: &[u8]) -> bool
    requires { 5 ≤ length s.now }
    ensures { result ≡ eqb (number_at 2 s.now 3) 2 }
{
    s[4] == 2 && s[3] == 0
}

// How many bytes follow a record's second value, which ends at a place: none in version 1, in version 2 a remark with its length byte.
// The sheet may be cut short there.
#[tactic(auto, using(crate::proofs::Tails::tailed_none, crate::proofs::Tails::tailed_cut, crate::proofs::Tails::tailed_remark))]
pub fn tail_at(s: &[u8], end: usize) -> usize
    requires { (5 ≤ length s.now) × (end ≤ length s.now) }
    ensures { Tailed s.now end result }
{
    if !has_remarks(s) {
        return 0;
    }
    if end == s.len() {
        return 1;
    }
    usize::from(s[end]) + 1
}

// Whether a record stands at a place, or why not.
#[tactic(auto, using(crate::proofs::Checks::none_left, crate::proofs::Checks::no_name, crate::proofs::Checks::long_name, crate::proofs::Checks::cut_values, crate::proofs::Checks::cut_tail, crate::proofs::Checks::unknown, crate::proofs::Checks::known))]
fn check_at(s: &[u8], at: usize) -> Result<(), Refusal>
    ensures { number_or_0 result ≡ fault_of (front_of (layout_in s.now) (drop at s.now)) }
{
    if s.len() <= at {
        return Err(Refusal::CutShort);
    }
    let n = usize::from(s[at]);
    if n == 0 || 40 < n {
        return Err(Refusal::NameLengthByte);
    }
    let start = at + 1;
    if s.len() - start < n + 17 {
        return Err(Refusal::CutShort);
    }
    let end = at + 18 + n;
    if s.len() - end < tail_at(s, end) {
        return Err(Refusal::CutShort);
    }
    if !kind::is_known(s[start + n]) {
        return Err(Refusal::UnknownKind);
    }
    Ok(())
}

// The record whose length byte stands at a place.
pub fn entry_at(s: &[u8], at: usize) -> Record
    requires { at + 18 + get_or s.now at 0 ≤ length s.now }
    ensures { result ≡ entry_at s.now at }
{
    let start = at + 1;
    let len = usize::from(s[at]);
    let k = start + len;
    Record {
        start,
        len,
        kind: s[k],
        first: number(s, k + 1, 8),
        second: number(s, k + 9, 8),
    }
}

// Whether a record stands at a place where so many are left.
#[tactic(auto, using(crate::proofs::Steps::stands_none, crate::proofs::Steps::stands_some))]
pub fn stands_at(s: &[u8], at: usize, left: usize) -> bool
    ensures { result ≡ stands_at (layout_in s.now) s.now at left }
{
    left != 0 && check_at(s, at).is_ok()
}

// The place behind the record that stands at a place.
#[tactic(auto, using(crate::proofs::Steps::stands_fits, crate::proofs::Steps::past_stands, crate::proofs::Steps::past_fits))]
pub fn past_at(s: &[u8], at: usize, left: usize) -> usize
    requires { stands_at (layout_in s.now) s.now at left ≡ true }
    ensures { result ≡ behind at (front_of (layout_in s.now) (drop at s.now)) }
{
    let end = at + 18 + usize::from(s[at]);
    end + tail_at(s, end)
}

// Whether the sheet ends at a place where no record stands, or why not.
#[tactic(auto, using(crate::proofs::Steps::end_last, crate::proofs::Steps::end_over, crate::proofs::Steps::end_fault))]
pub fn end_at(s: &[u8], at: usize, left: usize) -> Result<(), Refusal>
    ensures { number_or_0 result ≡ end_at (layout_in s.now) s.now at left }
{
    if left != 0 {
        return check_at(s, at);
    }
    if at == s.len() {
        Ok(())
    } else {
        Err(Refusal::CutShort)
    }
}
