// Bicubics and exponents of packed coefficients, which are read back here: a function that only unpacked them would be worked out
// by the compiler, and the unpacked numbers would stand in read-only memory.
#![tactic(auto)]

ghost use Rattle.std.specs.Prelude.{◌≡◌};
ghost use Rattle.quotient.specs.Range.{In, AllIn};
ghost use Rattle.packed.specs.Numbers.{numbers};
ghost use Rattle.bicubic.specs.Bicubic.{bicubic, exponent};

use packed::Block;
use std::array;

// The bicubic of a block of ten.
pub fn bicubic_of(a: &Block<10, 19>, y: i64, z: i64) -> i64
    requires { (AllIn 43 (numbers a.now)) × ((In 25 y) × (In 25 z)) }
    ensures { result ≡ bicubic (numbers a.now) y z }
{
    bicubic::bicubic(array::from_fn(|i| a.number(i)), y, z)
}

// The exponent of a block of four. One function over both would take as much to call as each has in it.
pub fn exponent_of(q: &Block<4, 8>, y: i64, z: i64) -> i64
    requires { (AllIn 44 (numbers q.now)) × ((In 25 y) × (In 25 z)) }
    ensures { result ≡ exponent (numbers q.now) y z }
{
    bicubic::exponent(array::from_fn(|i| q.number(i)), y, z)
}
