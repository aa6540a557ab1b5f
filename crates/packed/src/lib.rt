// Coefficients packed into words of 32 bits: reading one back.
#![tactic(auto)]

ghost use Rattle.std.specs.Prelude.{◌≡◌, ◌<◌, pos, get_or};
ghost use Rattle.quotient.specs.Range.{AllIn};
ghost use Rattle.packed.specs.Packed.{number_at, unpacked, IsPacked, Reads};

// The number that the i-th byte finds among words. Narrow or wide (`wide` is 0 or 1), two words are read and joined by one sum, without a branch.
pub fn number(bytes: &[u8], words: &[i32], i: usize) -> i64
    requires { Reads bytes.now words.now i }
    ensures { result ≡ number_at words.now (get_or bytes.now i 0) }
{
    let byte = usize::from(bytes[i]);
    let at = byte / 2;
    let wide = byte % 2;
    let lower = i64::from(words[at]);
    let upper = i64::from(words[at + wide]) * wide as i64;
    lower + upper * 4294967296
}

// A block of N numbers below 2^62: their words, filled up to W, and a byte for each number to find its own by.
pub struct Block<const N: usize, const W: usize> {
    pub bytes: [u8; N],
    pub words: [i32; W],
    ghost packed: { IsPacked N bytes words },
    ghost sized: { AllIn 62 (unpacked bytes words) },
}

impl<const N: usize, const W: usize> Block<N, W> {
    // The i-th number.
    pub fn number(&self, i: usize) -> i64
        requires { i < N }
        ensures { result ≡ get_or (unpacked self.now.bytes self.now.words) i (pos 0) }
    {
        number(&self.bytes, &self.words, i)
    }
}
