// The answer for a state.
#![tactic(auto)]

ghost use Rattle.std.specs.Prelude.{◌≡◌};
ghost use Rattle.air.specs.Held.{held};
ghost use Rattle.air.specs.Choices.{chosen};
ghost use Rattle.state.specs.State.{answer_by, IsAnswer};

use air::Answer;
use kind::Kind;

// The answer for a state handed in: any kind byte, since C and sheets hand in any, and any two values.
pub fn evaluate(kind: u8, first: u64, second: u64) -> Answer
    ensures result_value { held result ≡ answer_by chosen kind first second }
    ensures answer { IsAnswer kind first second result }
{
    match Kind::try_from(kind) {
        Ok(Kind::Temperature) => temperature::temperature(first, second),
        Ok(Kind::Entropy) => entropy::entropy(first, second),
        Ok(Kind::Pressure) => pressure::pressure(first, second),
        Err(refusal) => Answer::Refused(refusal.number()),
    }
}
