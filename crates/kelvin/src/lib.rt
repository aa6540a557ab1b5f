// Free answer three: 273.15 K times ten to a whole number of millionths, in whole microkelvin.
// Method: a table for the multiples of 65,536 millionths, a factor each for those of 2,048 and of 64, a straight line for the rest.
// The result is at most 0.0096 millionths below the power and at most 0.0066 above it (`near_power` of power/proofs/Kelvin).
#![tactic(auto)]

ghost use Rattle.std.specs.Prelude.{◌≡◌, ◌≤◌, pos};
ghost use Rattle.power.specs.Power.{IsPower};
ghost use Rattle.power.specs.Choice.{stride_of, step_of, power_of};

// The power at a multiple of 65,536 millionths, in microkelvin.
static COARSE: [u64; 30] = [
    273150000,
    317641475,
    369379853,
    429545530,
    499511170,
    580873019,
    675487325,
    785512688,
    913459306,
    1062246245,
    1235268039,
    1436472131,
    1670448938,
    1942536575,
    2258942648,
    2626885872,
    3054760771,
    3552329192,
    4130943022,
    4803803174,
    5586260768,
    6496167356,
    7554282207,
    8784745917,
    10215631176,
    11879583236,
    13814564703,
    16064721643,
    18681390766,
    21724270653,
];

// Ten to a multiple of 2,048 millionths, times 2^29.
static MIDDLE: [u64; 32] = [
    536870912, 539408609, 541958303, 544520048, 547093902, 549679922, 552278166, 554888691,
    557511556, 560146819, 562794538, 565454772, 568127581, 570813024, 573511161, 576222051,
    578945755, 581682334, 584431847, 587194358, 589969926, 592758614, 595560484, 598375597,
    601204017, 604045807, 606901029, 609769747, 612652026, 615547928, 618457519, 621380863,
];

// Ten to a multiple of 64 millionths, times 2^29.
static FINE: [u64; 32] = [
    536870912, 536950034, 537029167, 537108313, 537187470, 537266638, 537345819, 537425011,
    537504215, 537583430, 537662657, 537741896, 537821146, 537900408, 537979682, 538058967,
    538138265, 538217573, 538296894, 538376226, 538455570, 538534926, 538614293, 538693672,
    538773063, 538852465, 538931879, 539011305, 539090742, 539170192, 539249652, 539329125,
];

// The power at the multiple of 2,048 millionths at or below g. Here and below a place in a table is a small number of g.
#[tactic(auto, using(power::proofs::Tables::coarse_at, power::proofs::Tables::middle_at, power::proofs::Kelvin::stride_is), unfolding(power::specs::Choice::coarse, power::specs::Choice::middle, power::specs::Choice::stride_of))]
fn stride(g: u64) -> u64
    requires { g ≤ 1960000 }
    ensures { (result ≡ stride_of g) × (result ≤ 26000000000) }
{
    COARSE[(g / 65536) as usize] * MIDDLE[(g / 2048 % 32) as usize] / 536870912
}

// The power at the multiple of 64 millionths at or below g.
#[tactic(auto, using(power::proofs::Tables::fine_at, power::proofs::Kelvin::step_is), unfolding(power::specs::Choice::fine, power::specs::Choice::step_of))]
fn step(g: u64) -> u64
    requires { g ≤ 1960000 }
    ensures { (result ≡ step_of g) × (result ≤ 27000000000) }
{
    stride(g) * FINE[(g / 64 % 32) as usize] / 536870912
}

// 273150000 times ten to g millionths.
#[tactic(auto, unfolding(power::specs::Choice::power_of))]
pub fn kelvin_power(g: u64) -> u64
    requires { g ≤ 1960000 }
    ensures value { result ≡ power_of g }
    ensures power { IsPower 273150000 (pos g) result }
{
    let t = step(g);
    t + t * (g % 64) / 434262
}
