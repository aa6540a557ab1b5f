// A temperature joined between the edges of a strip.
#![tactic(auto)]

ghost use Rattle.std.specs.Prelude.{◌≡◌, Some};
ghost use Rattle.air.specs.Held.{held};
ghost use Rattle.air.specs.Places.{fitted_by};
ghost use Rattle.air.specs.Ready.{JoinReady};
ghost use Rattle.air_temperature.specs.Temperature.{temperature_rule};
ghost use Rattle.air.specs.Choices.{chosen};
ghost use Rattle.air_temperature.specs.Property.{kelvin_by};

use air::{Answer, Edges, Ends, Logs};
use bands::Strip;
use refusal::Refusal;

// The answer inside a strip, by the fits at its edges.
#[tactic(auto, unfolding(air::specs::Places::held_at))]
pub fn joined(logs: Logs, strip: Strip) -> Answer
    requires { JoinReady strip logs.y logs.z }
    ensures { held result ≡ fitted_by chosen temperature_rule (kelvin_by chosen) (Some strip) logs }
{
    let letter = b'T';
    let low = temperature_fit::fit_in(bands::band_of(strip.low), strip.low, logs.z);
    let high = temperature_fit::fit_in(bands::band_of(strip.high), strip.high, logs.z);
    let edges = Edges::Two(low, high);
    if temperature_fit::is_either_beyond(low.fit, high.fit) {
        return Answer::Judged {
            letter,
            number: Refusal::TemperatureFit.number(),
            logs,
            edges,
        };
    }
    let ends = Ends {
        low: temperature_fit::kelvin_of(low.fit),
        high: temperature_fit::kelvin_of(high.fit),
    };
    let value = proportion::straight(strip.low, strip.high, ends.low, ends.high, logs.y);
    Answer::Shows {
        letter,
        logs,
        edges,
        ends: Some(ends),
        value,
    }
}
