// The fit engine in 64 bits: G and W of a piece, whose coefficients are lent packed.
#![tactic(auto)]

ghost use Rattle.std.specs.Prelude.{◌≡◌};
ghost use Rattle.weight.specs.Choice.{weight_by, Served};
ghost use Rattle.fit.specs.Fit.{kept_in};
ghost use Rattle.fit.specs.Edge.{sign_of, limit_of, packed_alone, packed_joint, edge_with, Workable};

use packed::Block;
use packed_bicubic::{bicubic_of, exponent_of};

// A fit: its value G and the weight W that it was worked out with, in units of 10^-10.
#[derive(Clone, Copy)]
pub struct Edge {
    pub fit: i64,
    pub weight: i64,
}

// How B is led to: it is divided by one plus or by one minus the exponential of the exponent, or by one plus that of the
// exponent kept within 30 of 0 (label 230 of TGAS1).
#[derive(Clone, Copy)]
pub enum Form {
    Plus,
    Minus,
    Kept,
}

// `Workable` says of a piece and a place together that the one can be worked out at the other, which no type of either says.
// The fit of a piece that has a bicubic alone (GAS1 to GAS4).
pub fn alone_at(a: &Block<10, 19>, y: i64, z: i64) -> Edge
    requires { Workable (packed_alone a.now) y z }
    ensures { result ≡ edge_with weight_by (packed_alone a.now) y z }
{
    Edge {
        fit: bicubic_of(a, y, z),
        weight: 0,
    }
}

// The weight of a transition at its exponent. From 24 on a weight is 0 or 1, so that keeping an exponent changes none.
#[tactic(auto, using(crate::proofs::Kept::plus_kept))]
fn weight_of(form: Form, q: i64) -> i64
    requires { Served (sign_of form) (kept_in (limit_of form) q) }
    ensures { result ≡ weight_by (sign_of form) (kept_in (limit_of form) q) }
{
    match form {
        Form::Plus | Form::Kept => weigh::weight(q),
        Form::Minus => weigh::weight_minus(q),
    }
}

// The fit of a piece that has a second bicubic (b: GAS5 to GAS8) and the exponent that leads to it (q: GAS9).
pub fn joint_at(
    form: Form,
    a: &Block<10, 19>,
    b: &Block<10, 19>,
    q: &Block<4, 8>,
    y: i64,
    z: i64,
) -> Edge
    requires { Workable (packed_joint form a.now b.now q.now) y z }
    ensures { result ≡ edge_with weight_by (packed_joint form a.now b.now q.now) y z }
{
    let first = bicubic_of(a, y, z);
    let w = weight_of(form, exponent_of(q, y, z));
    let second = bicubic_of(b, y, z);
    Edge {
        fit: proportion::fitted(first, w, second),
        weight: w,
    }
}
