// Gamma's coefficients of the high band in TGAS1, packed: the fit of the piece that Z chooses.
// A function a piece: by its contract it is compared with the printed listing, by its block it is followed in the built library.
#![tactic(auto, unfolding(packed::specs::Packed::unpacked, packed::specs::Packed::bytes_from, packed::specs::Packed::words_of))]

mod blocks;

ghost use Rattle.std.specs.Prelude.{◌≡◌};
ghost use Rattle.weight.specs.Choice.{weight_by};
ghost use Rattle.fit.specs.Fit.{alone, joint, plus_by, kept_by};
ghost use Rattle.fit.specs.Edge.{edge_with, Workable};
ghost use Rattle.tgas1_gamma_high.specs.Pieces.{high_piece, high2_a, high3_a, high3_b, high3_q, high4_a, high4_b, high4_q};

use fit::{Edge, Form};

// Gamma's fit of the high band.
#[tactic(auto, using(bicubic::proofs::Constant::constant_is), unfolding(crate::specs::Pieces::high_pieces))]
pub fn gamma(y: i64, z: i64) -> Edge
    requires { Workable (high_piece z) y z }
    ensures { result ≡ edge_with weight_by (high_piece z) y z }
{
    if z <= 650000 {
        return Edge {
            fit: 13988000000,
            weight: 0,
        };
    }
    if z <= 1700000 {
        return high2(y, z);
    }
    if z <= 2350000 {
        return high3(y, z);
    }
    high4(y, z)
}

// Label 210.
fn high2(y: i64, z: i64) -> Edge
    requires { Workable (alone high2_a) y z }
    ensures { result ≡ edge_with weight_by (alone high2_a) y z }
{
    fit::alone_at(&blocks::HIGH2_A, y, z)
}

// Label 220.
fn high3(y: i64, z: i64) -> Edge
    requires { Workable (joint high3_a high3_b (plus_by high3_q)) y z }
    ensures { result ≡ edge_with weight_by (joint high3_a high3_b (plus_by high3_q)) y z }
{
    fit::joint_at(
        Form::Plus,
        &blocks::HIGH3_A,
        &blocks::HIGH3_B,
        &blocks::HIGH3_Q,
        y,
        z,
    )
}

// Label 230.
fn high4(y: i64, z: i64) -> Edge
    requires { Workable (joint high4_a high4_b (kept_by 300000000000 high4_q)) y z }
    ensures { result ≡ edge_with weight_by (joint high4_a high4_b (kept_by 300000000000 high4_q)) y z }
{
    fit::joint_at(
        Form::Kept,
        &blocks::HIGH4_A,
        &blocks::HIGH4_B,
        &blocks::HIGH4_Q,
        y,
        z,
    )
}
