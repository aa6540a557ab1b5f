// The cases of weights: a walk over exponents of a plus or minus transition.
#![tactic(auto)]

ghost use Rattle.std.specs.Prelude.{length, ◌≤◌};

use vector_answers::column;
use vector_names::label;
use vector_words::Words;

// The weights at an exponent and at its opposite, where there are any; an exponent beyond 63 bits is passed over.
fn both<F: Fn(i64) -> Option<i64>>(rt: &impl Print, q: u64, weight: &F)
    requires { F.IsAlwaysCallable weight.now }
{
    if let Ok(z) = i64::try_from(q) {
        for z in [z, -z] {
            if let Some(w) = weight(z) {
                column(rt, w);
            }
        }
    }
}

// The words of a walk, and its weights.
fn weights<F: Fn(i64) -> Option<i64>>(rt: &impl Print, words: &mut Words<'_>, weight: F)
    requires { F.IsAlwaysCallable weight }
    ensures { length words.new ≤ length words.old }
{
    let mut q = words.number(b' ');
    let step = words.number(b' ');
    let count = words.number(b' ');
    label(rt, words);
    for _ in 0..count {
        both(rt, q, &weight);
        q = q.saturating_add(step);
    }
}

pub fn plus(rt: &impl Print, words: &mut Words<'_>)
    ensures { length words.new ≤ length words.old }
{
    weights(rt, words, |z| Some(weigh::weight(z)));
}

// An exponent below 1.9 is passed over.
pub fn minus(rt: &impl Print, words: &mut Words<'_>)
    ensures { length words.new ≤ length words.old }
{
    weights(rt, words, |z| {
        if z.unsigned_abs() < 19000000000 {
            None
        } else {
            Some(weigh::weight_minus(z))
        }
    });
}
