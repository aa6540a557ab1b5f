// Gamma at a place: its fit, whether 17 refuses it, and the pressure that it makes.
#![tactic(auto)]

ghost use Rattle.std.specs.Prelude.{false, ◌||◌, ◌≡◌};
ghost use Rattle.air.specs.Places.{edge_by};
ghost use Rattle.air.specs.Choices.{chosen};
ghost use Rattle.air_pressure.specs.Pressure.{gamma_at, is_warned, beyond_gamma, pressure_of};
ghost use Rattle.pressure_fit.specs.Ready.{GammaReady, ValuesReady};

use bands::Strip;
use fit::Edge;

// Whether the listing warns at a place.
pub fn is_warned(y: i64, z: i64) -> bool
    ensures { result ≡ is_warned y z }
{
    tgas1_gamma::is_warned(bands::band_of(y), z)
}

// Whether it warns at one of a strip's edges.
pub fn is_either_warned(strip: Strip, z: i64) -> bool
    ensures { result ≡ (is_warned strip.low z || is_warned strip.high z) }
{
    is_warned(strip.low, z) || is_warned(strip.high, z)
}

// The fit of the piece that Y and Z choose.
pub fn gamma_at(y: i64, z: i64) -> Edge
    requires { (GammaReady y z) × (is_warned y z ≡ false) }
    ensures { result ≡ edge_by chosen (gamma_at y z) y z }
{
    tgas1_gamma::gamma(bands::band_of(y), y, z)
}

// Whether a gamma gets 17.
pub fn is_beyond(gamma: i64) -> bool
    ensures { result ≡ beyond_gamma gamma }
{
    gamma <= 10100000000 || 20000000000 <= gamma
}

// Whether one of two gammas does.
pub fn is_either_beyond(low: i64, high: i64) -> bool
    ensures { result ≡ (beyond_gamma low || beyond_gamma high) }
{
    is_beyond(low) || is_beyond(high)
}

// The pressure of a gamma that does not. Such a gamma is above 1.01, and the pressure below 2^63, so that `as` loses nothing.
pub fn pressure_of(e: u64, d: u64, gamma: i64) -> i64
    requires { (ValuesReady e d) × (beyond_gamma gamma ≡ false) }
    ensures { result ≡ pressure_of e d gamma }
{
    digits::pressure(d, e, (gamma - 10000000000) as u64) as i64
}
