// Products and quotients of whole numbers in 64 bits. Every quotient is rounded toward minus infinity; a product that would
// leave 64 bits is split first.
#![tactic(auto)]

ghost use Rattle.std.specs.Prelude.{◌≡◌, ◌*◌, ◌^◌, ◌<◌, pos, nat_abs, ◌*ℤ◌};
ghost use Rattle.std.specs.Int.Signed.{shr_z};
ghost use Rattle.quotient.specs.Range.{In, Divides, Splits};
ghost use Rattle.quotient.specs.Mul.{mul};

// a / m, by `as` where nothing is below 0: moved up by a multiple of m to above 0, where the machine's quotient rounds down.
pub fn floor_div(a: i64, m: i64) -> i64
    requires { Divides a m }
    ensures { result ≡ shr_z a (nat_abs m) }
{
    let k = 4611686018427387904 / m + 1;
    ((a + k * m) as u64 / m as u64) as i64 - k
}

// a * b / m.
pub fn mul_div(a: i64, b: i64, m: i64) -> i64
    requires { Splits a b m }
    ensures { result ≡ shr_z (a *ℤ b) (nat_abs m) }
{
    let h = floor_div(a, m);
    let l = a - h * m;
    h * b + floor_div(l * b, m)
}

// a * b / m for an m that is 2^k, by shifts.
fn mul_shift(a: i64, b: i64, k: u32, m: i64) -> i64
    requires { (k < 63) × (m ≡ pos (2 ^ k)) × Splits a b m }
    ensures { result ≡ shr_z (a *ℤ b) (nat_abs m) }
{
    let h = a >> k;
    let l = a - h * m;
    h * b + ((l * b) >> k)
}

// a * b / (m * n) for an m that is 2^k: by m with shifts, then by n.
pub fn mul_short(a: i64, b: i64, k: u32, m: i64, n: i64) -> i64
    requires { (k < 63) × (m ≡ pos (2 ^ k)) × Splits a b m × Divides (shr_z (a *ℤ b) (nat_abs m)) n }
    ensures { result ≡ shr_z (a *ℤ b) (nat_abs m * nat_abs n) }
{
    floor_div(mul_shift(a, b, k, m), n)
}

// a * b / 1,000,000 in the shortest way that the size of a allows. Below 2^38: one product, by 64 with a shift, then by 15,625.
pub fn mul_once(a: i64, b: i64) -> i64
    requires { (In 38 a) × (In 25 b) }
    ensures { result ≡ mul a b }
{
    floor_div((a * b) >> 6, 15625)
}

// Below 2^43, as every coefficient of a bicubic is: the same, of a product in two parts.
pub fn mul_small(a: i64, b: i64) -> i64
    requires { (In 43 a) × (In 25 b) }
    ensures { result ≡ mul a b }
{
    mul_short(a, b, 6, 64, 15625)
}

// Any a: two quotients.
pub fn mul_wide(a: i64, b: i64) -> i64
    requires { (In 57 a) × (In 25 b) }
    ensures { result ≡ mul a b }
{
    mul_div(a, b, 1000000)
}

// Any a, of which nearly all are below 2^38.
#[tactic(auto, using(crate::proofs::Machine::tested))]
pub fn mul(a: i64, b: i64) -> i64
    requires { (In 57 a) × (In 25 b) }
    ensures { result ≡ mul a b }
{
    if a < -274877906943 || 274877906943 < a {
        return mul_wide(a, b);
    }
    mul_once(a, b)
}
