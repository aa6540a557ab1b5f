// Temperature's coefficients of the high band in TGAS1, packed: the fit of the piece that Z chooses.
// A function a piece: by its contract it is compared with the printed listing, by its block it is followed in the built library.
#![tactic(auto, unfolding(packed::specs::Packed::unpacked, packed::specs::Packed::bytes_from, packed::specs::Packed::words_of))]

mod blocks;

ghost use Rattle.std.specs.Prelude.{◌≡◌};
ghost use Rattle.weight.specs.Choice.{weight_by};
ghost use Rattle.fit.specs.Fit.{alone, joint, plus_by};
ghost use Rattle.fit.specs.Edge.{edge_with, Workable};
ghost use Rattle.tgas1_temperature_high.specs.Pieces.{high_piece, high1_a, high2_a, high2_b, high2_q, high3_a, high3_b, high3_q};

use fit::{Edge, Form};

// Temperature's fit of the high band.
#[tactic(auto, unfolding(crate::specs::Pieces::high_pieces))]
pub fn fit(y: i64, z: i64) -> Edge
    requires { Workable (high_piece z) y z }
    ensures { result ≡ edge_with weight_by (high_piece z) y z }
{
    if z <= 950000 {
        return high1(y, z);
    }
    if z <= 1450000 {
        return high2(y, z);
    }
    high3(y, z)
}

// Label 410.
fn high1(y: i64, z: i64) -> Edge
    requires { Workable (alone high1_a) y z }
    ensures { result ≡ edge_with weight_by (alone high1_a) y z }
{
    fit::alone_at(&blocks::HIGH1_A, y, z)
}

// Label 420.
fn high2(y: i64, z: i64) -> Edge
    requires { Workable (joint high2_a high2_b (plus_by high2_q)) y z }
    ensures { result ≡ edge_with weight_by (joint high2_a high2_b (plus_by high2_q)) y z }
{
    fit::joint_at(
        Form::Plus,
        &blocks::HIGH2_A,
        &blocks::HIGH2_B,
        &blocks::HIGH2_Q,
        y,
        z,
    )
}

// Label 430.
fn high3(y: i64, z: i64) -> Edge
    requires { Workable (joint high3_a high3_b (plus_by high3_q)) y z }
    ensures { result ≡ edge_with weight_by (joint high3_a high3_b (plus_by high3_q)) y z }
{
    fit::joint_at(
        Form::Plus,
        &blocks::HIGH3_A,
        &blocks::HIGH3_B,
        &blocks::HIGH3_Q,
        y,
        z,
    )
}
