// Gamma's coefficients of the middle band in TGAS1, packed: the fit of the piece that Z chooses.
// A function a piece: by its contract it is compared with the printed listing, by its block it is followed in the built library.
#![tactic(auto, unfolding(packed::specs::Packed::unpacked, packed::specs::Packed::bytes_from, packed::specs::Packed::words_of))]

mod blocks;

ghost use Rattle.std.specs.Prelude.{◌≡◌};
ghost use Rattle.weight.specs.Choice.{weight_by};
ghost use Rattle.fit.specs.Fit.{joint, plus_by};
ghost use Rattle.fit.specs.Edge.{edge_with, Workable};
ghost use Rattle.tgas1_gamma_middle.specs.Pieces.{middle_piece, middle2_a, middle2_b, middle2_q, middle3_a, middle3_b, middle3_q, middle4_a, middle4_b, middle4_q, middle5_a, middle5_b, middle5_q};

use fit::{Edge, Form};

// Gamma's fit of the middle band.
#[tactic(auto, using(bicubic::proofs::Constant::constant_is), unfolding(crate::specs::Pieces::middle_pieces))]
pub fn gamma(y: i64, z: i64) -> Edge
    requires { Workable (middle_piece z) y z }
    ensures { result ≡ edge_with weight_by (middle_piece z) y z }
{
    if z <= 650000 {
        return Edge {
            fit: 13980000000,
            weight: 0,
        };
    }
    if z <= 1500000 {
        return middle2(y, z);
    }
    if z <= 2220000 {
        return middle3(y, z);
    }
    if z <= 2950000 {
        return middle4(y, z);
    }
    middle5(y, z)
}

// Label 160.
fn middle2(y: i64, z: i64) -> Edge
    requires { Workable (joint middle2_a middle2_b (plus_by middle2_q)) y z }
    ensures { result ≡ edge_with weight_by (joint middle2_a middle2_b (plus_by middle2_q)) y z }
{
    fit::joint_at(
        Form::Plus,
        &blocks::MIDDLE2_A,
        &blocks::MIDDLE2_B,
        &blocks::MIDDLE2_Q,
        y,
        z,
    )
}

// Label 170.
fn middle3(y: i64, z: i64) -> Edge
    requires { Workable (joint middle3_a middle3_b (plus_by middle3_q)) y z }
    ensures { result ≡ edge_with weight_by (joint middle3_a middle3_b (plus_by middle3_q)) y z }
{
    fit::joint_at(
        Form::Plus,
        &blocks::MIDDLE3_A,
        &blocks::MIDDLE3_B,
        &blocks::MIDDLE3_Q,
        y,
        z,
    )
}

// Label 180.
fn middle4(y: i64, z: i64) -> Edge
    requires { Workable (joint middle4_a middle4_b (plus_by middle4_q)) y z }
    ensures { result ≡ edge_with weight_by (joint middle4_a middle4_b (plus_by middle4_q)) y z }
{
    fit::joint_at(
        Form::Plus,
        &blocks::MIDDLE4_A,
        &blocks::MIDDLE4_B,
        &blocks::MIDDLE4_Q,
        y,
        z,
    )
}

// Label 190.
fn middle5(y: i64, z: i64) -> Edge
    requires { Workable (joint middle5_a middle5_b (plus_by middle5_q)) y z }
    ensures { result ≡ edge_with weight_by (joint middle5_a middle5_b (plus_by middle5_q)) y z }
{
    fit::joint_at(
        Form::Plus,
        &blocks::MIDDLE5_A,
        &blocks::MIDDLE5_B,
        &blocks::MIDDLE5_Q,
        y,
        z,
    )
}
