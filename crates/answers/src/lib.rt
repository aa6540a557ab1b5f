// What two values give before any property looks at them: their logarithms, or the refusal of one that is out of its range.
#![tactic(auto)]

ghost use Rattle.std.specs.Prelude.{◌≡◌, ◌<◌, ◌≤◌, IfOk, nat_abs};
ghost use Rattle.refusal.specs.Numbered.{number_for, numbered};
ghost use Rattle.answers.specs.Taken.{log_taken, pressure_taken, energy_taken};

use air::Logs;
use refusal::Refusal;

// A quantity's range, and the standard that its logarithm is over.
#[derive(Clone, Copy)]
struct Quantity {
    least: u64,
    most: u64,
    standard: u64,
}

const PRESSURE: Quantity = Quantity {
    least: 1,
    most: 100000000000000000,
    standard: 101330000000,
};

const DENSITY: Quantity = Quantity {
    least: 12920,
    most: 129200000000000,
    standard: 129200000000,
};

const ENERGY: Quantity = Quantity {
    least: 7840840,
    most: 1000000000000,
    standard: 78408400,
};

impl Quantity {
    // The logarithm of a value, or the refusal of one that is out of range.
    #[tactic(auto, using(logarithm::proofs::Ratios::log_small))]
    fn log(self, n: u64, refusal: Refusal) -> Result<i64, Refusal>
        requires { (0 < self.least) × (0 < self.standard) }
        ensures value { numbered result ≡ log_taken self.least self.most self.standard n (number_for refusal) }
        ensures size { IfOk result (λ l. nat_abs l ≤ 20000000) }
    {
        if !(self.least..=self.most).contains(&n) {
            return Err(refusal);
        }
        Ok(log10::log10_ratio(n, self.standard))
    }
}

// The logarithms of a pressure and a density of any size.
pub fn pressure_logs(p: u64, d: u64) -> Result<Logs, Refusal>
    ensures { numbered result ≡ pressure_taken p d }
{
    let x = PRESSURE.log(p, Refusal::FirstValue)?;
    let y = DENSITY.log(d, Refusal::SecondValue)?;
    Ok(Logs {
        x: Some(x),
        y,
        z: x - y,
    })
}

// The logarithms of an energy and a density of any size.
pub fn energy_logs(e: u64, d: u64) -> Result<Logs, Refusal>
    ensures { numbered result ≡ energy_taken e d }
{
    let z = ENERGY.log(e, Refusal::FirstValue)?;
    let y = DENSITY.log(d, Refusal::SecondValue)?;
    Ok(Logs { x: None, y, z })
}
