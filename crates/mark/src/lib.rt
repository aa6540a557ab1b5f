// Plot marks: a state's answer as a point of two doubles, or a blank.
#![tactic(auto)]

ghost use Rattle.std.specs.Prelude.{◌≡◌};
ghost use Rattle.std.specs.Int.Signed.{shr_z};
ghost use Rattle.air.specs.Held.{held};
ghost use Rattle.mark.specs.Mark.{point_of, shown_value, mark_of, Drawable, CanDraw};

use air::Answer;

// Two doubles.
#[repr(C)]
#[derive(Clone, Copy)]
pub struct Point {
    pub across: f64,
    pub up: f64,
}

// Where a value stands. Both doubles are exact, which `as` gives of numbers below 2^53; i64 has no `From` to f64.
fn point_of(y: i64, v: i64) -> Point
    requires { Drawable y v }
    ensures { result ≡ point_of y v }
{
    Point {
        across: y as f64 + 7000000.0,
        up: v as f64,
    }
}

// a / 10^6, rounded down.
fn millionth(a: i64) -> i64
    ensures { result ≡ shr_z a 1000000 }
{
    if a < 0 {
        return -1 - (-1 - a) / 1000000;
    }
    a / 1000000
}

// What a mark shows of a value: of a pressure its whole pascals.
fn shown_value(letter: u8, v: i64) -> i64
    ensures { result ≡ shown_value letter v }
{
    if letter == b'P' { millionth(v) } else { v }
}

// The mark of an answer: a point, or a blank with the number of its refusal.
pub fn mark_of(a: Answer) -> Result<Point, u32>
    requires { CanDraw (held a) }
    ensures { result ≡ mark_of (held a) }
{
    match a {
        Answer::Refused(number) => Err(number),
        Answer::Judged { number, .. } => Err(number),
        Answer::Shows {
            letter,
            logs,
            value,
            ..
        } => Ok(point_of(logs.y, shown_value(letter, value))),
    }
}
