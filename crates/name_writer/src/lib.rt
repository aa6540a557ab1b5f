// What a name is written as.
#![tactic(auto)]

ghost use Rattle.std.specs.Prelude.{◌≡◌, ◌+◌, ◌≤◌, ◌++◌, length};
ghost use Rattle.arrayvec.specs.ArrayVec.{array_vec_len};
ghost use Rattle.refusal.specs.Numbered.{numbered};
ghost use Rattle.octets.specs.Room.{written, outcome_of};
ghost use Rattle.name.specs.Spelling.{spelled_byte};
ghost use Rattle.name.specs.Name.{spelling_of};
ghost use Rattle.name.specs.Told.{told};

use name::Spelling;
use refusal::Refusal;

// Writes a byte of a name behind a spelling.
#[tactic(auto, unfolding(name::specs::Spelling::spelled_byte))]
fn spell_byte(spelling: &mut Spelling, byte: u8)
    requires { array_vec_len spelling.old + 3 ≤ 120 }
    ensures { spelling.new.items ≡ spelling.old.items ++ spelled_byte byte }
{
    if name::plain(byte) {
        spelling.push(byte);
    } else {
        spelling.push(b'%');
        spelling.push(name::hex_digit(byte / 16));
        spelling.push(name::hex_digit(byte % 16));
    }
}

// What a name is written as.
#[tactic(auto, using(crate::proofs::Turns::spelled_none, crate::proofs::Turns::spelled_more, crate::proofs::Turns::spelled_room, crate::proofs::Turns::spelled_all, name::proofs::Written::spelling_none))]
pub fn spelling(name: &[u8]) -> Result<Spelling, Refusal>
    ensures { told result ≡ spelling_of name.now 120 }
{
    if !(1..=40).contains(&name.len()) {
        return Err(Refusal::NameLength);
    }
    let mut spelling = Spelling::new();
    for &byte in name {
        spell_byte(&mut spelling, byte);
    }
    Ok(spelling)
}

// Writes a name to the start of lent room that is long enough for it.
#[tactic(auto, using(name::proofs::Written::spelling_refit))]
pub fn spell(name: &[u8], out: &mut [u8]) -> Result<usize, Refusal>
    ensures value { numbered result ≡ outcome_of (spelling_of name.now (length out.old)) }
    ensures out_after { out.new ≡ written (spelling_of name.now (length out.old)) out.old }
{
    octets::put(&spelling(name)?, out)
}
