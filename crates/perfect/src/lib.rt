// The perfect gas: an exact quotient of some 100 bits by one of 62, in 64-bit steps.
#![tactic(auto)]

ghost use Rattle.std.specs.Prelude.{◌≡◌};
ghost use Rattle.perfect.specs.Perfect.{perfect_gas, Dividable};

// p * 10^13 / (28,706 * d), rounded down.
// 28,706 is 2 * 14,353, so the quotient is that of p * 5 * 10^12 by 14,353 and then by d, in the digits 5 * 10^7 and 10^5.
pub fn perfect_gas(p: u64, d: u64) -> u64
    requires { Dividable p d }
    ensures { result ≡ perfect_gas p d }
{
    let a = p / 14353;
    let m = p % 14353 * 5000000000000 / 14353;
    let t = a * 50000000 + m / 100000;
    let u = t % d * 100000 + m % 100000;
    t / d * 100000 + u / d
}
