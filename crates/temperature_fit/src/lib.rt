// A temperature's fit at a place: G and W, whether 13 refuses it, and the temperature that it makes.
#![tactic(auto)]

ghost use Rattle.std.specs.Prelude.{false, ◌||◌, ◌≡◌};
ghost use Rattle.bands.specs.Region.{temperature_index};
ghost use Rattle.tgas1_temperature.specs.Pieces.{temperature_piece};
ghost use Rattle.air.specs.Places.{edge_by};
ghost use Rattle.air.specs.Ready.{PlaceReady};
ghost use Rattle.air_temperature.specs.Temperature.{beyond_fit};
ghost use Rattle.air.specs.Choices.{chosen};
ghost use Rattle.air_temperature.specs.Property.{kelvin_by};

use bands::Band;
use fit::Edge;

// The fit of a band's piece that Z chooses.
pub fn fit_in(band: Band, y: i64, z: i64) -> Edge
    requires { PlaceReady y z }
    ensures { result ≡ edge_by chosen (temperature_piece band (temperature_index band z)) y z }
{
    tgas1_temperature::fit(band, y, z)
}

// Whether a fit gets 13.
pub fn is_beyond(fit: i64) -> bool
    ensures { result ≡ beyond_fit fit }
{
    fit < 0 || 19600000000 < fit
}

// Whether one of two fits does.
pub fn is_either_beyond(low: i64, high: i64) -> bool
    ensures { result ≡ (beyond_fit low || beyond_fit high) }
{
    is_beyond(low) || is_beyond(high)
}

// The temperature of a fit that does not. Such a fit is not negative, and its power below 2^63.
pub fn kelvin_of(fit: i64) -> i64
    requires { beyond_fit fit ≡ false }
    ensures { result ≡ kelvin_by chosen fit }
{
    kelvin::kelvin_power(fit as u64 / 10000) as i64
}
