// A pressure joined between the edges of a strip.
#![tactic(auto)]

ghost use Rattle.std.specs.Prelude.{◌≡◌, Some};
ghost use Rattle.air.specs.Held.{held};
ghost use Rattle.air.specs.Places.{fitted_by};
ghost use Rattle.air.specs.Choices.{chosen};
ghost use Rattle.air_pressure.specs.Pressure.{pressure_of, pressure_rule};
ghost use Rattle.pressure_fit.specs.Ready.{StripReady};
ghost use Rattle.pressure_join.specs.Line.{line_of, LineReady};

use air::{Answer, Edges, Ends, Logs};
use bands::Strip;
use fit::Edge;
use refusal::Refusal;

// As in temperature_join, over another fit; a function over both would take the property's refusal, test and value, and be no plainer.
// The answer by the two gammas: the straight line between their pressures, both with the state's own energy and density.
fn line(e: u64, d: u64, logs: Logs, strip: Strip, low: Edge, high: Edge) -> Answer
    requires { LineReady e d strip logs.y }
    ensures { held result ≡ line_of e d strip logs low high }
{
    let letter = b'P';
    let edges = Edges::Two(low, high);
    if pressure_fit::is_either_beyond(low.fit, high.fit) {
        return Answer::Judged {
            letter,
            number: Refusal::Gamma.number(),
            logs,
            edges,
        };
    }
    let ends = Ends {
        low: pressure_fit::pressure_of(e, d, low.fit),
        high: pressure_fit::pressure_of(e, d, high.fit),
    };
    let value = proportion::straight(strip.low, strip.high, ends.low, ends.high, logs.y);
    Answer::Shows {
        letter,
        logs,
        edges,
        ends: Some(ends),
        value,
    }
}

// The answer inside a strip, by gamma at its edges.
pub fn joined(e: u64, d: u64, logs: Logs, strip: Strip) -> Answer
    requires { StripReady e d strip logs.y logs.z }
    ensures { held result ≡ fitted_by chosen (pressure_rule e d) (pressure_of e d) (Some strip) logs }
{
    if pressure_fit::is_either_warned(strip, logs.z) {
        return Answer::Judged {
            letter: b'P',
            number: Refusal::Gamma.number(),
            logs,
            edges: Edges::Unfitted,
        };
    }
    let low = pressure_fit::gamma_at(strip.low, logs.z);
    let high = pressure_fit::gamma_at(strip.high, logs.z);
    line(e, d, logs, strip, low, high)
}
