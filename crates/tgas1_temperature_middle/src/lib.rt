// Temperature's coefficients of the middle band in TGAS1, packed: the fit of the piece that Z chooses.
// A function a piece: by its contract it is compared with the printed listing, by its block it is followed in the built library.
#![tactic(auto, unfolding(packed::specs::Packed::unpacked, packed::specs::Packed::bytes_from, packed::specs::Packed::words_of))]

mod blocks;

ghost use Rattle.std.specs.Prelude.{◌≡◌};
ghost use Rattle.weight.specs.Choice.{weight_by};
ghost use Rattle.fit.specs.Fit.{alone, joint, plus_by};
ghost use Rattle.fit.specs.Edge.{edge_with, Workable};
ghost use Rattle.tgas1_temperature_middle.specs.Pieces.{middle_piece, middle1_a, middle2_a, middle2_b, middle2_q, middle3_a, middle3_b, middle3_q, middle4_a, middle4_b, middle4_q};

use fit::{Edge, Form};

// Temperature's fit of the middle band.
#[tactic(auto, unfolding(crate::specs::Pieces::middle_pieces))]
pub fn fit(y: i64, z: i64) -> Edge
    requires { Workable (middle_piece z) y z }
    ensures { result ≡ edge_with weight_by (middle_piece z) y z }
{
    if z <= 950000 {
        return middle1(y, z);
    }
    if z <= 1400000 {
        return middle2(y, z);
    }
    if z <= 2000000 {
        return middle3(y, z);
    }
    middle4(y, z)
}

// Label 360.
fn middle1(y: i64, z: i64) -> Edge
    requires { Workable (alone middle1_a) y z }
    ensures { result ≡ edge_with weight_by (alone middle1_a) y z }
{
    fit::alone_at(&blocks::MIDDLE1_A, y, z)
}

// Label 370.
fn middle2(y: i64, z: i64) -> Edge
    requires { Workable (joint middle2_a middle2_b (plus_by middle2_q)) y z }
    ensures { result ≡ edge_with weight_by (joint middle2_a middle2_b (plus_by middle2_q)) y z }
{
    fit::joint_at(
        Form::Plus,
        &blocks::MIDDLE2_A,
        &blocks::MIDDLE2_B,
        &blocks::MIDDLE2_Q,
        y,
        z,
    )
}

// Label 380.
fn middle3(y: i64, z: i64) -> Edge
    requires { Workable (joint middle3_a middle3_b (plus_by middle3_q)) y z }
    ensures { result ≡ edge_with weight_by (joint middle3_a middle3_b (plus_by middle3_q)) y z }
{
    fit::joint_at(
        Form::Plus,
        &blocks::MIDDLE3_A,
        &blocks::MIDDLE3_B,
        &blocks::MIDDLE3_Q,
        y,
        z,
    )
}

// Label 390.
fn middle4(y: i64, z: i64) -> Edge
    requires { Workable (joint middle4_a middle4_b (plus_by middle4_q)) y z }
    ensures { result ≡ edge_with weight_by (joint middle4_a middle4_b (plus_by middle4_q)) y z }
{
    fit::joint_at(
        Form::Plus,
        &blocks::MIDDLE4_A,
        &blocks::MIDDLE4_B,
        &blocks::MIDDLE4_Q,
        y,
        z,
    )
}
