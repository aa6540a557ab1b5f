// The entropy's coefficients in TGAS2, packed, and its limits: the fit of a band.
#![tactic(auto, unfolding(packed::specs::Packed::unpacked, packed::specs::Packed::bytes_from, packed::specs::Packed::words_of))]

mod blocks;

ghost use Rattle.std.specs.Prelude.{◌≡◌};
ghost use Rattle.quotient.specs.Range.{In};
ghost use Rattle.bicubic.specs.Bicubic.{bicubic};
ghost use Rattle.tgas2_entropy.specs.Entropy.{entropy_coefficients, entropy_limit, low_n, middle_n, high_n};

use bands::Band;
use packed_bicubic::bicubic_of;

// The bicubic n of a band.
#[tactic(auto, unfolding(crate::specs::Entropy::entropy_coefficients))]
pub fn entropy_bicubic(band: Band, y: i64, z: i64) -> i64
    requires { (In 25 y) × (In 25 z) }
    ensures { result ≡ bicubic (entropy_coefficients band) y z }
{
    match band {
        Band::Low => low_entropy(y, z),
        Band::Middle => middle_entropy(y, z),
        Band::High => high_entropy(y, z),
    }
}

// The largest Z of a band.
pub fn entropy_limit(band: Band) -> i64
    ensures { result ≡ entropy_limit band }
{
    match band {
        Band::Low => 3690000,
        Band::Middle => 3400000,
        Band::High => 3000000,
    }
}

// Label 80, GAS1 to GAS4.
fn low_entropy(y: i64, z: i64) -> i64
    requires { (In 25 y) × (In 25 z) }
    ensures { result ≡ bicubic low_n y z }
{
    bicubic_of(&blocks::LOW_N, y, z)
}

// Label 90, GAS1 to GAS4.
fn middle_entropy(y: i64, z: i64) -> i64
    requires { (In 25 y) × (In 25 z) }
    ensures { result ≡ bicubic middle_n y z }
{
    bicubic_of(&blocks::MIDDLE_N, y, z)
}

// Label 100, GAS1 to GAS4.
fn high_entropy(y: i64, z: i64) -> i64
    requires { (In 25 y) × (In 25 z) }
    ensures { result ≡ bicubic high_n y z }
{
    bicubic_of(&blocks::HIGH_N, y, z)
}
