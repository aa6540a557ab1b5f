// Entropy of an energy and a density.
#![tactic(auto)]

ghost use Rattle.std.specs.Prelude.{◌≡◌, Some, None};
ghost use Rattle.std.proofs.Math.Option.{some};
ghost use Rattle.bands.specs.Bands.{strip_of};
ghost use Rattle.air.specs.Held.{held};
ghost use Rattle.air.specs.Choices.{chosen};
ghost use Rattle.air.specs.Property.{held_by};
ghost use Rattle.air.specs.Ready.{PlaceReady, JoinReady};
ghost use Rattle.air_entropy.specs.Entropy.{entropy_from};
ghost use Rattle.air_entropy.specs.Property.{entropy_property};
ghost use Rattle.entropy.specs.Within.{within_limit};

use air::{Answer, Edges, Logs};
use bands::Strip;
use refusal::Refusal;

// The entropy outside the strips, where Z is within its limit.
fn unjoined(y: i64, z: i64) -> Option<i64>
    requires { PlaceReady y z }
    ensures { result ≡ within_limit None y z }
{
    if entropy_fit::above_limit(y, z) {
        return None;
    }
    Some(entropy_fit::entropy_at(y, z))
}

// The entropy inside a strip, where Z is within its limit at both edges.
fn joined(strip: Strip, y: i64, z: i64) -> Option<i64>
    requires { JoinReady strip y z }
    ensures { result ≡ within_limit (Some strip) y z }
{
    if entropy_fit::above_limit(strip.low, z) || entropy_fit::above_limit(strip.high, z) {
        return None;
    }
    let low = entropy_fit::entropy_at(strip.low, z);
    let high = entropy_fit::entropy_at(strip.high, z);
    Some(proportion::straight(strip.low, strip.high, low, high, y))
}

// The entropy where Z is within its limit.
#[tactic(auto, using(air::proofs::Strips::strip_ready))]
fn within_limit(y: i64, z: i64) -> Option<i64>
    requires { PlaceReady y z }
    ensures { result ≡ within_limit (strip_of y) y z }
{
    match bands::strip_of(y) {
        None => unjoined(y, z),
        Some(strip) => joined(strip, y, z),
    }
}

// An entropy's answer from its logarithms.
#[tactic(auto, unfolding(air_entropy::specs::Entropy::entropy_in))]
fn entropy_from(logs: Logs) -> Answer
    requires { PlaceReady logs.y logs.z }
    ensures { held result ≡ entropy_from logs }
{
    let letter = b'S';
    let edges = Edges::Unfitted;
    match within_limit(logs.y, logs.z) {
        None => Answer::Judged {
            letter,
            number: Refusal::OutsideFits.number(),
            logs,
            edges,
        },
        Some(value) => Answer::Shows {
            letter,
            logs,
            edges,
            ends: None,
            value,
        },
    }
}

// Entropy from an energy and a density of any size.
pub fn entropy(e: u64, d: u64) -> Answer
    ensures { held result ≡ held_by chosen (some entropy_property) e d }
{
    match answers::energy_logs(e, d) {
        Ok(logs) => entropy_from(logs),
        Err(refusal) => Answer::Refused(refusal.number()),
    }
}
