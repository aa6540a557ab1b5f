// Free answer two: the weight of a transition, 10^10 / (1 + e^q) for q in units of 10^-10.
// Method: q = i/16 + r with r below 1/16; c = scale / e^(i/16) from two tables, v = scale * e^r from seven terms of the series,
// and the weight is c / (c + v). scale is 1.8 * 10^11. Proved: within 2 units for every number of terms from 128 up.
// A minus transition (document 02, request 3) has 10^10 / (1 - e^q), by c / (v - c): within 2 units from 1.9 on, on either side of 0.
#![tactic(auto)]

ghost use Rattle.std.specs.Prelude.{◌≡◌, ◌+◌, ◌*◌, ◌<◌, ◌≤◌, nat_abs};
ghost use Rattle.weight.specs.Weight.{tolerance, IsWeight, IsMinusWeight};
ghost use Rattle.weigh.specs.Signs.{is_minus, sign_of};
ghost use Rattle.weight.specs.Choice.{scale, inverse, exponential, portion, weight_of, minus_of, above_by, FarEnough, weight_by, Served};

// scale / e^n, rounded up.
static WHOLES: [u64; 24] = [
    180000000000,
    66218299411,
    24360350983,
    8961672307,
    3296815000,
    1212830460,
    446175392,
    164138754,
    60383274,
    22213765,
    8171988,
    3006307,
    1105959,
    406860,
    149676,
    55063,
    20257,
    7452,
    2742,
    1009,
    372,
    137,
    51,
    19,
];

// scale / e^(j/16), rounded up.
static SIXTEENTHS: [u64; 16] = [
    180000000000,
    169094351307,
    158849442466,
    149225241273,
    140184140953,
    131690813211,
    123712070183,
    116216734758,
    109175518749,
    102560908452,
    96347057134,
    90509684035,
    85025979494,
    79874515815,
    75035163543,
    70489012802,
];

// scale / e^(i/16), with places below 24 and 16: the product of two entries over scale = 10^4 * 1.8 * 10^7, one entry split at four digits.
fn inverse_at(i: u64) -> u64
    requires { i < 384 }
    ensures { result ≡ inverse i }
{
    let a = WHOLES[(i / 16) as usize];
    let b = SIXTEENTHS[(i % 16) as usize];
    (a / 10000 * b + a % 10000 * b / 10000) / 18000000 + 1
}

// scale * e^r: the terms 0 to 6, the later ones from the square of r so that few wait for each other.
#[tactic(auto, unfolding(weight::specs::Choice::square, weight::specs::Choice::second, weight::specs::Choice::third, weight::specs::Choice::fourth, weight::specs::Choice::fifth, weight::specs::Choice::sixth, weight::specs::Choice::exponential))]
fn exponential_of(r: u64) -> u64
    requires { r < 625000000 }
    ensures { result ≡ exponential r }
{
    let square = r * r / 10000000000;
    let first = 18 * r;
    let second = first * r / 20000000000;
    let third = second * r / 30000000000;
    let fourth = second * square / 120000000000;
    let fifth = third * square / 200000000000;
    let sixth = fourth * square / 300000000000;
    180000000000 + first + second + third + fourth + fifth + sixth
}

// 10^10 * c / g, with g rounded to hundreds so that one quotient gives it.
fn portion_of(c: u64, g: u64) -> u64
    requires { (c ≤ scale + 1) × (scale ≤ 2 * g) × (g ≤ 4 * scale) }
    ensures { result ≡ portion c g }
{
    c * 100000000 / ((g + 50) / 100)
}

// Whether one plus or one minus the exponential is divided by.
#[derive(Clone, Copy)]
enum Sign {
    Plus,
    Minus,
}

// The weight at u units: c / (c + v). Of a minus transition 10^10 / (e^u - 1): c / (v - c).
fn above(sign: Sign, u: u64) -> u64
    requires { FarEnough (is_minus sign) u }
    ensures { result ≡ above_by (is_minus sign) u }
{
    if u >= 240000000000 {
        return 0;
    }
    let c = inverse_at(u / 625000000);
    let v = exponential_of(u % 625000000);
    match sign {
        Sign::Plus => portion_of(c, c + v),
        Sign::Minus => portion_of(c, v - c),
    }
}

// The weight at q units, by the size of q. A size is far below 2^63.
fn weight_at(sign: Sign, q: i64) -> i64
    requires { Served (sign_of sign) q }
    ensures { result ≡ weight_by (sign_of sign) q }
{
    let size = above(sign, q.unsigned_abs()) as i64;
    match sign {
        Sign::Plus if q < 0 => 10000000000 - size,
        Sign::Plus => size,
        Sign::Minus if q < 0 => 10000000000 + size,
        Sign::Minus => -size,
    }
}

// The weight at q units of 10^-10.
pub fn weight(q: i64) -> i64
    ensures value { result ≡ weight_of q }
    ensures weight { IsWeight tolerance q result }
{
    weight_at(Sign::Plus, q)
}

// The weight of a minus transition at q units of 10^-10.
pub fn weight_minus(q: i64) -> i64
    requires { 19000000000 ≤ nat_abs q }
    ensures value { result ≡ minus_of q }
    ensures minus_weight { IsMinusWeight tolerance q result }
{
    weight_at(Sign::Minus, q)
}
