// Products of more than 64 bits, digit by digit in 64-bit steps.
#![tactic(auto)]

ghost use Rattle.std.specs.Prelude.{◌≡◌, ◌*◌, ◌/◌, ◌^◌};
ghost use Rattle.digits.specs.Factors.{Multiplies};

// d * e * g / 10^18, rounded down. d * e, d in two parts by 2^24, is divided by 10^9: h is the quotient, and what is left of b the rest.
// A caller knows g last, so it is multiplied last.
#[tactic(auto, using(crate::proofs::Product::pressure_is))]
pub fn pressure(d: u64, e: u64, g: u64) -> u64
    requires { Multiplies d e g }
    ensures { result ≡ d * e * g / 10 ^ 18 }
{
    let a = d / 16777216 * e;
    let b = a % 1000000000 * 16777216 + d % 16777216 * e;
    let h = a / 1000000000 * 16777216 + b / 1000000000;
    h / 1000000000 * g + (h % 1000000000 * g + b % 1000000000 * g / 1000000000) / 1000000000
}
