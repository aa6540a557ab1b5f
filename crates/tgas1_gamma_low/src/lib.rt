// Gamma's coefficients of the low band in TGAS1, packed: the fit of the piece that Z chooses.
// A function a piece: by its contract it is compared with the printed listing, by its block it is followed in the built library.
#![tactic(auto, unfolding(packed::specs::Packed::unpacked, packed::specs::Packed::bytes_from, packed::specs::Packed::words_of))]

mod blocks;

ghost use Rattle.std.specs.Prelude.{◌≡◌};
ghost use Rattle.weight.specs.Choice.{weight_by};
ghost use Rattle.fit.specs.Fit.{alone, joint, plus_by, minus_by};
ghost use Rattle.fit.specs.Edge.{edge_with, Workable};
ghost use Rattle.tgas1_gamma_low.specs.Pieces.{low_piece, low2_a, low2_b, low2_q, low3_a, low3_b, low3_q, low4_a, low4_b, low4_q, low5_a, low5_b, low5_q, low6_a};

use fit::{Edge, Form};

// Gamma's fit of the low band.
#[tactic(auto, using(bicubic::proofs::Constant::constant_is), unfolding(crate::specs::Pieces::low_pieces))]
pub fn gamma(y: i64, z: i64) -> Edge
    requires { Workable (low_piece z) y z }
    ensures { result ≡ edge_with weight_by (low_piece z) y z }
{
    if z <= 650000 {
        return Edge {
            fit: 13965000000,
            weight: 0,
        };
    }
    if z <= 1500000 {
        return low2(y, z);
    }
    if z <= 2200000 {
        return low3(y, z);
    }
    if z <= 3050000 {
        return low4(y, z);
    }
    if z <= 3400000 {
        return low5(y, z);
    }
    low6(y, z)
}

// Label 100.
fn low2(y: i64, z: i64) -> Edge
    requires { Workable (joint low2_a low2_b (minus_by low2_q)) y z }
    ensures { result ≡ edge_with weight_by (joint low2_a low2_b (minus_by low2_q)) y z }
{
    fit::joint_at(
        Form::Minus,
        &blocks::LOW2_A,
        &blocks::LOW2_B,
        &blocks::LOW2_Q,
        y,
        z,
    )
}

// Label 110.
fn low3(y: i64, z: i64) -> Edge
    requires { Workable (joint low3_a low3_b (plus_by low3_q)) y z }
    ensures { result ≡ edge_with weight_by (joint low3_a low3_b (plus_by low3_q)) y z }
{
    fit::joint_at(
        Form::Plus,
        &blocks::LOW3_A,
        &blocks::LOW3_B,
        &blocks::LOW3_Q,
        y,
        z,
    )
}

// Label 120.
fn low4(y: i64, z: i64) -> Edge
    requires { Workable (joint low4_a low4_b (plus_by low4_q)) y z }
    ensures { result ≡ edge_with weight_by (joint low4_a low4_b (plus_by low4_q)) y z }
{
    fit::joint_at(
        Form::Plus,
        &blocks::LOW4_A,
        &blocks::LOW4_B,
        &blocks::LOW4_Q,
        y,
        z,
    )
}

// Label 130.
fn low5(y: i64, z: i64) -> Edge
    requires { Workable (joint low5_a low5_b (plus_by low5_q)) y z }
    ensures { result ≡ edge_with weight_by (joint low5_a low5_b (plus_by low5_q)) y z }
{
    fit::joint_at(
        Form::Plus,
        &blocks::LOW5_A,
        &blocks::LOW5_B,
        &blocks::LOW5_Q,
        y,
        z,
    )
}

// Label 140.
fn low6(y: i64, z: i64) -> Edge
    requires { Workable (alone low6_a) y z }
    ensures { result ≡ edge_with weight_by (alone low6_a) y z }
{
    fit::alone_at(&blocks::LOW6_A, y, z)
}
