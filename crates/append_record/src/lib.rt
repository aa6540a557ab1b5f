// A sheet with one record more, written.
#![tactic(auto)]

ghost use Rattle.std.specs.Prelude.{◌≡◌, ◌+◌, ◌<◌, ◌≤◌, length};
ghost use Rattle.octets.specs.Bytes.{number_at, bytes_of};
ghost use Rattle.octets.specs.Room.{text, written, put_at};
ghost use Rattle.append_record.specs.Grown.{new_record, grown};

// Writes a record with an empty remark to a place of a room, and gives the place behind it. The kind is the byte that is written; a name's length fits one.
fn put_record(name: &[u8], kind: u8, first: u64, second: u64, out: &mut [u8], at: usize) -> usize
    requires { (length name.now < 256) × (at + (length name.now + 19) ≤ length out.old) }
    ensures value { result ≡ at + length (new_record name.now kind first second) }
    ensures out_after { out.new ≡ put_at out.old at (new_record name.now kind first second) }
{
    let named = octets::append(&[name.len() as u8], out, at);
    let kinded = octets::append(name, out, named);
    let valued = octets::append(&[kind], out, kinded);
    let dense = octets::append(&first.to_be_bytes(), out, valued);
    let remarked = octets::append(&second.to_be_bytes(), out, dense);
    octets::append(&[0], out, remarked)
}

// Writes a sheet with one record more to a room that has space for it.
pub fn put_grown(s: &[u8], name: &[u8], kind: u8, first: u64, second: u64, out: &mut [u8])
    requires { (7 ≤ length s.now) × (number_at 2 s.now 5 < 65536) × (length name.now < 256) × (length s.now + (length name.now + 19) ≤ length out.old) }
    ensures { out.new ≡ written (text (grown s.now (new_record name.now kind first second))) out.old }
{
    let raised = sheet_record::number(s, 5, 2) + 1;
    let counted = octets::append(&s[..5], out, 0);
    let kept = octets::append(&raised.to_be_bytes()[6..], out, counted);
    let end = octets::append(&s[7..], out, kept);
    put_record(name, kind, first, second, out, end);
}
