// Bicubics and exponents of a fit in 64 bits: each product a mul, from left to right. A coefficient of a bicubic is
// small; a term of an exponent is seldom so small that a test for it would pay.
#![tactic(auto)]

ghost use Rattle.std.specs.Prelude.{◌≡◌, ◌+ℤ◌};
ghost use Rattle.quotient.specs.Range.{In, AllIn};
ghost use Rattle.quotient.specs.Mul.{mul};
ghost use Rattle.bicubic.specs.Bicubic.{bicubic, exponent};

use quotient::{mul, mul_small, mul_wide};

// Each number has a size of its own, in bits, so that the sizes stand in the contracts and not in a type.
// a + bY.
fn linear(a: i64, b: i64, y: i64) -> i64
    requires { (In 43 a) × ((In 43 b) × (In 25 y)) }
    ensures { result ≡ a +ℤ mul b y }
{
    a + mul_small(b, y)
}

// (a + bY)Z.
fn linear_by(a: i64, b: i64, y: i64, z: i64) -> i64
    requires { (In 43 a) × ((In 43 b) × ((In 25 y) × (In 25 z))) }
    ensures { result ≡ mul (a +ℤ mul b y) z }
{
    mul(linear(a, b, y), z)
}

// (a + bY + cZ)ZZ.
fn linear_by_square(a: i64, b: i64, c: i64, y: i64, z: i64) -> i64
    requires { (In 43 a) × ((In 43 b) × ((In 43 c) × ((In 25 y) × (In 25 z)))) }
    ensures { result ≡ mul (mul (a +ℤ mul b y +ℤ mul c z) z) z }
{
    mul(mul(linear(a, b, y) + mul_small(c, z), z), z)
}

// The bicubic of ten coefficients.
pub fn bicubic(k: [i64; 10], y: i64, z: i64) -> i64
    requires { (AllIn 43 k) × ((In 25 y) × (In 25 z)) }
    ensures { result ≡ bicubic k y z }
{
    linear(k[0], k[1], y)
        + linear_by(k[2], k[3], y, z)
        + linear_by_square(k[4], k[5], k[6], z, y)
        + linear_by_square(k[7], k[8], k[9], y, z)
}

// The exponent of four terms.
pub fn exponent(c: [i64; 4], y: i64, z: i64) -> i64
    requires { (AllIn 44 c) × ((In 25 y) × (In 25 z)) }
    ensures { result ≡ exponent c y z }
{
    c[0] + mul_wide(c[1], y) + mul_wide(c[2], z) + mul_wide(mul_wide(c[3], y), z)
}
