// Writing a listing to standard output, with an account of what it took.
#![tactic(auto)]

ghost use Rattle.std.specs.Prelude.{◌≡◌, ◌+◌, ◌<◌, ◌≤◌, length, OnOk, IfOk};
ghost use Rattle.air.specs.Choices.{chosen};
ghost use Rattle.report.specs.Listing.{listing_by};
ghost use Rattle.listing_output.specs.Output.{Next, Reached, Takes, done_of};

use complaint::complain;
use std::io::{Error, ErrorKind, Write};

// How many bytes of a listing standard output took, of all that it was given. Only this crate makes one.
#[derive(Clone, Copy)]
pub struct Progress {
    done: usize,
}

// The same where it took none of the next ones. Only this crate makes one.
#[derive(Clone, Copy)]
pub struct Lost {
    done: usize,
}

// How far a listing is written: all that was to be, or up to a write that failed.
pub type Written = Result<Progress, Lost>;

// Before the first write.
pub fn nothing() -> Progress
    ensures { result.done ≡ 0 }
{
    Progress { done: 0 }
}

// One write of the next bytes of the listing of a sheet and a list. Where it takes none, standard error says that the listing is not
// whole, as on a full disk: the program's exit status does not tell.
fn write_some<W: Write>(
    rt: &impl Eprint,
    output: &mut W,
    sheet: &[u8],
    list: &[u8],
    account: Progress,
    bytes: &[u8],
) -> Written
    requires next { Next (listing_by chosen sheet.now list.now) account.done bytes.now }
    requires bytes_bound { account.done + length bytes.now < 18446744073709551616 }
    ensures done_le_done { (account.done ≤ done_of result) × (done_of result ≤ account.done + length bytes.now) }
    ensures done_lt_done { OnOk result (account.done < done_of result) }
    ensures bytes { Takes (W.contents output.old) (W.contents output.new) (listing_by chosen sheet.now list.now) account.done (done_of result) }
{
    let error = match output.write(bytes) {
        Ok(0) => Error::from(ErrorKind::WriteZero),
        Ok(n) => {
            return Ok(Progress {
                done: account.done + n,
            });
        }
        Err(error) => error,
    };
    complain(
        rt,
        "listing: the output could not be written, it is not whole",
        error,
    );
    Err(Lost { done: account.done })
}

// Writes the next bytes of the listing of a sheet and a list, all of them or up to a write that fails.
#[tactic(auto, using(crate::proofs::Next::next_rest, crate::proofs::Next::rest_size, crate::proofs::Taken::takes_more))]
pub fn write_next<W: Write>(
    rt: &impl Eprint,
    output: &mut W,
    sheet: &[u8],
    list: &[u8],
    account: Progress,
    bytes: &[u8],
) -> Written
    requires next { Next (listing_by chosen sheet.now list.now) account.done bytes.now }
    requires bytes_bound { account.done + length bytes.now < 18446744073709551616 }
    ensures reached { Reached (account.done + length bytes.now) result }
    ensures bytes { Takes (W.contents output.old) (W.contents output.new) (listing_by chosen sheet.now list.now) account.done (done_of result) }
{
    let end = account.done + bytes.len();
    // how far a write comes is told by the system
    let mut written = account;
    while written.done < end {
        let at = written.done - account.done;
        written = write_some(rt, output, sheet, list, written, &bytes[at..])?;
    }
    Ok(written)
}
