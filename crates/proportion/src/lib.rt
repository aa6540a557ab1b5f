// Products over a constant or a width in 64 bits, each rounded down: the part of B in a fit, the straight line of a join, an entropy's scale.
#![tactic(auto)]

ghost use Rattle.std.specs.Prelude.{◌≡◌, ◌*◌, ◌^◌, ◌≤◌, pos, nat_abs, ◌+ℤ◌, ◌*ℤ◌};
ghost use Rattle.std.specs.Int.Signed.{shr_z};
ghost use Rattle.weight.specs.Weight.{units};
ghost use Rattle.quotient.specs.Range.{In, Between};
ghost use Rattle.proportion.specs.Reach.{reach};
ghost use Rattle.proportion.specs.Straight.{straight};

use quotient::mul_div;

// W * B / 10^10 of any B: it is split by 10^10 and what is left of it is divided twice by 10^5.
fn scaled_wide(w: i64, b: i64) -> i64
    requires { (nat_abs w ≤ reach) × (In 57 b) }
    ensures { result ≡ shr_z (w *ℤ b) units }
{
    let h = quotient::floor_div(b, 10000000000);
    let l = b - h * 10000000000;
    h * w + quotient::floor_div(mul_div(w, l, 100000), 100000)
}

// W * B / 10^10. A B below 2^38, as nearly all are, takes one quotient: by 1,024 with shifts, then by 9,765,625.
#[tactic(auto, using(quotient::proofs::Machine::tested, crate::proofs::Scaling::scaled_splits, crate::proofs::Scaling::scaled_divides))]
pub fn scaled(w: i64, b: i64) -> i64
    requires { (nat_abs w ≤ reach) × (In 57 b) }
    ensures { result ≡ shr_z (w *ℤ b) units }
{
    if b < -274877906943 || 274877906943 < b {
        return scaled_wide(w, b);
    }
    quotient::mul_short(b, w, 10, 1024, 9765625)
}

// G where there is a second bicubic, of the two bicubics' values and the weight.
pub fn fitted(a: i64, w: i64, b: i64) -> i64
    requires { (In 57 a) × ((nat_abs w ≤ reach) × (In 57 b)) }
    ensures { result ≡ a +ℤ shr_z (w *ℤ b) units }
{
    a + scaled(w, b)
}

// The straight line from low at a to high at b.
pub fn straight(a: i64, b: i64, low: i64, high: i64, y: i64) -> i64
    requires { (Between a b y) × ((In 25 a) × ((In 25 b) × ((In 57 low) × (In 57 high)))) }
    ensures { result ≡ straight a b low high y }
{
    low + mul_div(high - low, y - a, b - a)
}

// 28,706 * n / 10^8: a fit value n of the entropy over R, in units of 0.0001 J/(kg K).
pub fn entropy_of_fit(n: i64) -> i64
    requires { In 57 n }
    ensures { result ≡ shr_z (pos 28706 *ℤ n) (10 ^ 8) }
{
    mul_div(n, 28706, 100000000)
}

// m * 28,706 * 2,302,585 / (2 * 10^10): the perfect gas's entropy above its base.
pub fn entropy_rise(m: i64) -> i64
    requires { In 27 m }
    ensures { result ≡ shr_z (m *ℤ pos 28706 *ℤ pos 2302585) (2 * 10 ^ 10) }
{
    mul_div(66098005010, m, 20000000000)
}
