// Free answer one: the decimal logarithm of a ratio of two 64-bit numbers, in whole millionths.
// Method: leading zeros, one of 32 factors that brings the leading bits to between 1 and 33/32, one of 32 chords; no division.
// Each of the two logarithms is at most 1,106 units of 10^-10 too small (`lg_is` of logarithm/proofs/Numbers); their difference is rounded to millionths.
#![tactic(auto)]

ghost use Rattle.std.specs.Prelude.{◌≡◌, ◌≤◌, ◌<◌};
ghost use Rattle.logarithm.specs.Log.{IsLog};
ghost use Rattle.logarithm.specs.Choice.{chord_of, mantissa_of, lg_of, log_of};

// 2^36 / (32 + i), rounded up.
static FACTORS: [u32; 32] = [
    2147483648, 2082408386, 2021161081, 1963413622, 1908874354, 1857283156, 1808407283, 1762037866,
    1717986919, 1676084799, 1636178018, 1598127366, 1561806290, 1527099484, 1493901669, 1462116527,
    1431655766, 1402438301, 1374389535, 1347440721, 1321528399, 1296593901, 1272582903, 1249445032,
    1227133514, 1205604856, 1184818565, 1164736894, 1145324613, 1126548799, 1108378658, 1090785346,
];

// The logarithm of 2^31 over that factor.
static FACTOR_LOGS: [u32; 32] = [
    0, 133639615, 263289386, 389180658, 511525223, 630517455, 746336181, 859146284, 969100128,
    1076338782, 1180993119, 1283184772, 1383026980, 1480625351, 1576078531, 1669478794, 1760912588,
    1850461016, 1938200259, 2024201975, 2108533652, 2191258911, 2272437813, 2352127110, 2430380483,
    2507248769, 2582780150, 2657020332, 2730012717, 2801798566, 2872417107, 2941905707,
];

// The logarithm of 1 + i / 1024.
static POINTS: [u32; 32] = [
    0, 4239087, 8474041, 12704869, 16931580, 21154181, 25372680, 29587086, 33797406, 38003648,
    42205821, 46403931, 50597987, 54787997, 58973968, 63155909, 67333826, 71507728, 75677623,
    79843517, 84005420, 88163338, 92317278, 96467250, 100613260, 104755315, 108893424, 113027593,
    117157831, 121284145, 125406542, 129525029,
];

// From that point to the next.
static RISES: [u32; 32] = [
    4239087, 4234954, 4230828, 4226711, 4222601, 4218499, 4214406, 4210320, 4206242, 4202173,
    4198110, 4194056, 4190010, 4185971, 4181941, 4177917, 4173902, 4169895, 4165894, 4161903,
    4157918, 4153940, 4149972, 4146010, 4142055, 4138109, 4134169, 4130238, 4126314, 4122397,
    4118487, 4114586,
];

// The logarithm of (1024 + i + r / 2^32) / 1024 by the chord. Here and below a place in a table is below 32, and a sum below 2^63.
fn chord(i: u64, r: u64) -> u64
    requires { (i < 32) × (r < 4294967296) }
    ensures { (result ≡ chord_of i r) × (result ≤ 200000000) }
{
    u64::from(POINTS[i as usize]) + r * u64::from(RISES[i as usize]) / 4294967296
}

// The logarithm of m / 2^31.
fn mantissa(m: u64) -> u64
    requires { (2147483648 ≤ m) × (m < 4294967296) }
    ensures { (result ≡ mantissa_of m) × (result ≤ 3200000000) }
{
    let i = (m / 67108864 % 32) as usize;
    let p = m * u64::from(FACTORS[i]);
    u64::from(FACTOR_LOGS[i]) + chord(p / 4503599627370496 % 32, p / 1048576 % 4294967296)
}

// The logarithm of n, in units of 10^-10.
fn lg(n: u64) -> u64
    requires { 0 < n }
    ensures { (result ≡ lg_of n) × (result < 200000000000) }
{
    let z = u64::leading_zeros(n);
    let x = n << z;
    mantissa(x / 4294967296) + 189648897228 - u64::from(z) * 3010299956
}

// The logarithm of n / d in whole millionths.
pub fn log10_ratio(n: u64, d: u64) -> i64
    requires { (0 < n) × (0 < d) }
    ensures value { result ≡ log_of n d }
    ensures log { IsLog n d result }
{
    let g = (lg(n) + 200000005000 - lg(d)) / 10000;
    (g as i64) - 20000000
}
