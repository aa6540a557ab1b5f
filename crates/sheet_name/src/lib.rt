// The name of the record that starts at a place of a sheet: its bytes, whether it is a given name, and the chain of a name.
#![tactic(auto)]

ghost use Rattle.std.specs.Prelude.{◌≡◌, ◌<◌};
ghost use Rattle.octets.specs.Bytes.{same};
ghost use Rattle.sheet_name.specs.Name.{name_at, NameFits, hash_of};

// The name of the record that starts at a place.
pub fn name_at<'a>(s: &'a [u8], at: usize) -> &'a [u8]
    requires { NameFits s.now at }
    ensures { result.now ≡ name_at s.now at }
{
    let start = at + 1;
    &s[start..start + usize::from(s[at])]
}

// Whether the record that starts at a place has a name: their lengths are compared first.
#[tactic(auto, using(crate::proofs::Same::eq_same))]
pub fn has_name(s: &[u8], at: usize, name: &[u8]) -> bool
    requires { NameFits s.now at }
    ensures { result ≡ same (name_at s.now at) name.now }
{
    name_at(s, at) == name
}

// The chain of a name.
#[tactic(auto, using(crate::proofs::Names::hash_next, crate::proofs::Names::hash_ends), unfolding(crate::specs::Name::hash_of))]
pub fn hash_of(name: &[u8]) -> usize
    ensures { (result ≡ hash_of name.now) × (result < 4096) }
{
    let mut h: usize = 0;
    for &b in name {
        h = (h + usize::from(b)) * 2654435769 % 4294967296;
    }
    h / 1048576
}
