// Pressure of an energy and a density.
#![tactic(auto)]

ghost use Rattle.std.specs.Prelude.{◌≡◌, None};
ghost use Rattle.std.proofs.Math.Option.{some};
ghost use Rattle.air.specs.Held.{held};
ghost use Rattle.air.specs.Places.{fitted_by};
ghost use Rattle.air.specs.Choices.{chosen};
ghost use Rattle.air_pressure.specs.Pressure.{pressure_of, pressure_rule};
ghost use Rattle.air_pressure.specs.Property.{pressure_by, pressure_property};
ghost use Rattle.air.specs.Property.{held_by};
ghost use Rattle.pressure.specs.Ready.{PressureReady};

use air::{Answer, Edges, Logs};
use refusal::Refusal;

// The answer outside the strips.
fn unjoined(e: u64, d: u64, logs: Logs) -> Answer
    requires { PressureReady e d logs }
    ensures { held result ≡ fitted_by chosen (pressure_rule e d) (pressure_of e d) None logs }
{
    let letter = b'P';
    let number = Refusal::Gamma.number();
    if pressure_fit::is_warned(logs.y, logs.z) {
        return Answer::Judged {
            letter,
            number,
            logs,
            edges: Edges::Unfitted,
        };
    }
    let edge = pressure_fit::gamma_at(logs.y, logs.z);
    let edges = Edges::One(edge);
    if pressure_fit::is_beyond(edge.fit) {
        return Answer::Judged {
            letter,
            number,
            logs,
            edges,
        };
    }
    Answer::Shows {
        letter,
        logs,
        edges,
        ends: None,
        value: pressure_fit::pressure_of(e, d, edge.fit),
    }
}

// A pressure's answer from its logarithms.
#[tactic(auto, unfolding(air_pressure::specs::Property::pressure_by))]
fn pressure_from(e: u64, d: u64, logs: Logs) -> Answer
    requires { PressureReady e d logs }
    ensures { held result ≡ pressure_by chosen e d logs }
{
    match bands::strip_of(logs.y) {
        None => unjoined(e, d, logs),
        Some(strip) => pressure_join::joined(e, d, logs, strip),
    }
}

// Pressure from an energy and a density of any size. As `temperature`: each names its own logarithms and answer.
pub fn pressure(e: u64, d: u64) -> Answer
    ensures { held result ≡ held_by chosen (some pressure_property) e d }
{
    match answers::energy_logs(e, d) {
        Ok(logs) => pressure_from(e, d, logs),
        Err(refusal) => Answer::Refused(refusal.number()),
    }
}
