// Temperature's coefficients of the low band in TGAS1, packed: the fit of the piece that Z chooses.
// A function a piece: by its contract it is compared with the printed listing, by its block it is followed in the built library.
#![tactic(auto, unfolding(packed::specs::Packed::unpacked, packed::specs::Packed::bytes_from, packed::specs::Packed::words_of))]

mod blocks;

ghost use Rattle.std.specs.Prelude.{◌≡◌};
ghost use Rattle.weight.specs.Choice.{weight_by};
ghost use Rattle.fit.specs.Fit.{alone, joint, plus_by};
ghost use Rattle.fit.specs.Edge.{edge_with, Workable};
ghost use Rattle.tgas1_temperature_low.specs.Pieces.{low_piece, low1_a, low2_a, low2_b, low2_q, low3_a, low3_b, low3_q, low4_a, low4_b, low4_q};

use fit::{Edge, Form};

// Temperature's fit of the low band.
#[tactic(auto, unfolding(crate::specs::Pieces::low_pieces))]
pub fn fit(y: i64, z: i64) -> Edge
    requires { Workable (low_piece z) y z }
    ensures { result ≡ edge_with weight_by (low_piece z) y z }
{
    if z <= 950000 {
        return low1(y, z);
    }
    if z <= 1400000 {
        return low2(y, z);
    }
    if z <= 1950000 {
        return low3(y, z);
    }
    low4(y, z)
}

// Label 310.
fn low1(y: i64, z: i64) -> Edge
    requires { Workable (alone low1_a) y z }
    ensures { result ≡ edge_with weight_by (alone low1_a) y z }
{
    fit::alone_at(&blocks::LOW1_A, y, z)
}

// Label 320.
fn low2(y: i64, z: i64) -> Edge
    requires { Workable (joint low2_a low2_b (plus_by low2_q)) y z }
    ensures { result ≡ edge_with weight_by (joint low2_a low2_b (plus_by low2_q)) y z }
{
    fit::joint_at(
        Form::Plus,
        &blocks::LOW2_A,
        &blocks::LOW2_B,
        &blocks::LOW2_Q,
        y,
        z,
    )
}

// Label 330.
fn low3(y: i64, z: i64) -> Edge
    requires { Workable (joint low3_a low3_b (plus_by low3_q)) y z }
    ensures { result ≡ edge_with weight_by (joint low3_a low3_b (plus_by low3_q)) y z }
{
    fit::joint_at(
        Form::Plus,
        &blocks::LOW3_A,
        &blocks::LOW3_B,
        &blocks::LOW3_Q,
        y,
        z,
    )
}

// Label 340.
fn low4(y: i64, z: i64) -> Edge
    requires { Workable (joint low4_a low4_b (plus_by low4_q)) y z }
    ensures { result ≡ edge_with weight_by (joint low4_a low4_b (plus_by low4_q)) y z }
{
    fit::joint_at(
        Form::Plus,
        &blocks::LOW4_A,
        &blocks::LOW4_B,
        &blocks::LOW4_Q,
        y,
        z,
    )
}
