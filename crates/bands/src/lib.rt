// Where a state falls: density bands, the strips between them, and the pieces of a band.
#![tactic(auto)]

ghost use Rattle.std.specs.Prelude.{◌≡◌, [], ◌∷◌};
ghost use Rattle.bands.specs.Units.{index_in};
ghost use Rattle.bands.specs.Bands.{band_of, strip_of};
ghost use Rattle.bands.specs.Region.{temperature_index, region_of};

// A density band, chosen by Y.
#[derive(Clone, Copy, Debug, PartialEq, Eq)]
pub enum Band {
    Low,
    Middle,
    High,
}

// The two edges between which a property is joined.
#[derive(Clone, Copy, Debug, PartialEq, Eq)]
pub struct Strip {
    pub low: i64,
    pub high: i64,
}

// What a temperature's Y and Z choose: refusal 12, the perfect gas, or a fitted piece of a band.
#[derive(Clone, Copy, Debug, PartialEq, Eq)]
pub enum Region {
    Refused,
    Perfect,
    Fitted(Band, usize),
}

// The density band of a Y.
pub fn band_of(y: i64) -> Band
    ensures { result ≡ band_of y }
{
    if y <= -4500000 {
        return Band::Low;
    }
    if y <= -500000 {
        return Band::Middle;
    }
    Band::High
}

// The strip that a Y is inside of.
pub fn strip_of(y: i64) -> Option<Strip>
    ensures { result ≡ strip_of y }
{
    if -4525000 < y && y < -4475000 {
        return Some(Strip {
            low: -4525000,
            high: -4475000,
        });
    }
    if -505000 < y && y < -495000 {
        return Some(Strip {
            low: -505000,
            high: -495000,
        });
    }
    None
}

// Which of three parts z falls to. By ifs: an array of ends would be built anew at each temperature.
fn third(z: i64, a: i64, b: i64) -> usize
    ensures { result ≡ index_in (a ∷ b ∷ []) z }
{
    if z <= a {
        return 0;
    }
    if z <= b {
        return 1;
    }
    2
}

// Which of four parts z falls to.
fn quarter(z: i64, a: i64, b: i64, c: i64) -> usize
    ensures { result ≡ index_in (a ∷ b ∷ c ∷ []) z }
{
    if z <= a {
        return 0;
    }
    1 + third(z, b, c)
}

// Which fitted piece of a band z falls to.
pub fn piece_index(band: Band, z: i64) -> usize
    ensures { result ≡ temperature_index band z }
{
    match band {
        Band::Low => quarter(z, 950000, 1400000, 1950000),
        Band::Middle => quarter(z, 950000, 1400000, 2000000),
        Band::High => third(z, 950000, 1450000),
    }
}

// What a temperature's Y and Z choose.
pub fn region_of(y: i64, z: i64) -> Region
    ensures { result ≡ region_of y z }
{
    if z < -1000000 || 3000000 < z {
        return Region::Refused;
    }
    if z <= 250000 {
        return Region::Perfect;
    }
    let band = band_of(y);
    Region::Fitted(band, piece_index(band, z))
}
