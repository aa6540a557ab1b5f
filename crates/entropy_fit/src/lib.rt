// The entropy at a place, and whether Z is above its limit there.
#![tactic(auto)]

ghost use Rattle.std.specs.Prelude.{◌≡◌};
ghost use Rattle.air_entropy.specs.Entropy.{rise, entropy_at, above_limit};
ghost use Rattle.air.specs.Ready.{PlaceReady};

// Y and Z are numbers of their own, since a strip's edge has its own Y with the state's Z: `PlaceReady` says where they lie.
// m of the perfect entropy.
fn rise(y: i64, z: i64) -> i64
    requires { PlaceReady y z }
    ensures { result ≡ rise y z }
{
    5 * (z - 400000) - 2 * y
}

// The entropy at a place, with no join.
#[tactic(auto, unfolding(air_entropy::specs::Entropy::entropy_at, air_entropy::specs::Entropy::fitted_entropy))]
pub fn entropy_at(y: i64, z: i64) -> i64
    requires { PlaceReady y z }
    ensures { result ≡ entropy_at y z }
{
    if z <= 650000 {
        return 67792004 + proportion::entropy_rise(rise(y, z));
    }
    let band = bands::band_of(y);
    proportion::entropy_of_fit(tgas2_entropy::entropy_bicubic(band, y, z))
}

// Whether Z is above the limit of the band of Y.
pub fn above_limit(y: i64, z: i64) -> bool
    ensures { result ≡ above_limit y z }
{
    tgas2_entropy::entropy_limit(bands::band_of(y)) < z
}
