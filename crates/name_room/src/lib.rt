// A name that a spelling reads to, in lent room.
#![tactic(auto)]

ghost use Rattle.std.specs.Prelude.{◌≡◌, length};
ghost use Rattle.refusal.specs.Numbered.{numbered};
ghost use Rattle.octets.specs.Room.{written, outcome_of};
ghost use Rattle.name_room.specs.Read.{read_in};

use refusal::Refusal;

// Reads a spelling and puts the name at the start of a room that is long enough for it.
pub fn read(spelled: &[u8], out: &mut [u8]) -> Result<usize, Refusal>
    ensures value { numbered result ≡ outcome_of (read_in (length out.old) spelled.now) }
    ensures out_after { out.new ≡ written (read_in (length out.old) spelled.now) out.old }
{
    octets::put(&name_reader::read(spelled)?, out)
}
