// Temperature of a pressure and a density.
#![tactic(auto)]

ghost use Rattle.std.specs.Prelude.{◌≡◌, None};
ghost use Rattle.std.proofs.Math.Option.{some};
ghost use Rattle.bands.specs.Bands.{strip_of};
ghost use Rattle.air.specs.Held.{held};
ghost use Rattle.air.specs.Places.{held_at, point_of, fitted_by};
ghost use Rattle.air_temperature.specs.Temperature.{temperature_rule};
ghost use Rattle.air.specs.Choices.{chosen};
ghost use Rattle.air_temperature.specs.Property.{kelvin_by, temperature_by, temperature_property};
ghost use Rattle.air.specs.Property.{held_by};
ghost use Rattle.temperature.specs.Ready.{FittedReady, TemperatureReady};

use air::{Answer, Edges, Logs};
use bands::{Band, Region};
use fit::Edge;
use refusal::Refusal;

// The answer of a fit at the state's own place.
#[tactic(auto, unfolding(air::specs::Places::held_at))]
fn unjoined(logs: Logs, edge: Edge) -> Answer
    ensures { held result ≡ held_at temperature_rule None logs (λ y. point_of (kelvin_by chosen) edge) }
{
    let letter = b'T';
    let edges = Edges::One(edge);
    if temperature_fit::is_beyond(edge.fit) {
        return Answer::Judged {
            letter,
            number: Refusal::TemperatureFit.number(),
            logs,
            edges,
        };
    }
    Answer::Shows {
        letter,
        logs,
        edges,
        ends: None,
        value: temperature_fit::kelvin_of(edge.fit),
    }
}

// The answer of a fit, in a strip joined.
#[tactic(auto, using(air::proofs::Strips::strip_ready))]
fn fitted(band: Band, logs: Logs) -> Answer
    requires { FittedReady band logs.y logs.z }
    ensures { held result ≡ fitted_by chosen temperature_rule (kelvin_by chosen) (strip_of logs.y) logs }
{
    match bands::strip_of(logs.y) {
        None => unjoined(logs, temperature_fit::fit_in(band, logs.y, logs.z)),
        Some(strip) => temperature_join::joined(logs, strip),
    }
}

// A temperature's answer from its logarithms.
#[tactic(auto, unfolding(air_temperature::specs::Property::temperature_by))]
fn temperature_from(p: u64, d: u64, logs: Logs) -> Answer
    requires { TemperatureReady p d logs }
    ensures { held result ≡ temperature_by chosen p d logs }
{
    let letter = b'T';
    let edges = Edges::Unfitted;
    match bands::region_of(logs.y, logs.z) {
        Region::Refused => Answer::Judged {
            letter,
            number: Refusal::OutsideFits.number(),
            logs,
            edges,
        },
        // such a temperature is below 2^63
        Region::Perfect => Answer::Shows {
            letter,
            logs,
            edges,
            ends: None,
            value: perfect::perfect_gas(p, d) as i64,
        },
        Region::Fitted(band, _) => fitted(band, logs),
    }
}

// Temperature from a pressure and a density of any size.
pub fn temperature(p: u64, d: u64) -> Answer
    ensures { held result ≡ held_by chosen (some temperature_property) p d }
{
    match answers::pressure_logs(p, d) {
        Ok(logs) => temperature_from(p, d, logs),
        Err(refusal) => Answer::Refused(refusal.number()),
    }
}
