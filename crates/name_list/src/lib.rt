// A list of names, one a line.
#![tactic(auto)]

ghost use Rattle.std.specs.Prelude.{◌<◌, length};
ghost use Rattle.name_list.specs.Lines.{FirstLine};

// Where the line that starts at a place ends.
pub fn line_end(list: &[u8], start: usize) -> usize
    requires { start < length list.now }
    ensures { FirstLine list.now start result }
{
    match list[start..].iter().position(|&byte| byte == b'\n') {
        Some(before) => start + before,
        None => list.len(),
    }
}
