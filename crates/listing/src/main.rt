// The listing program: reads sheet.eas and the names on standard input, and writes the listing.
#![tactic(auto)]

ghost use Rattle.std.specs.Prelude.{length, take, ◌<◌, ◌≤◌};
ghost use Rattle.std.specs.Io.KnownBytes.{Consumes};
ghost use Rattle.air.specs.Choices.{chosen};
ghost use Rattle.report.specs.Listing.{listing_by};
ghost use Rattle.listing_input.specs.Input.{ToEnd};
ghost use Rattle.listing_output.specs.Output.{Reached, Wrote};

use listing_input::Input;
use listing_output::Written;
use std::io::{Read, Write};
use std::rt::Files;

// The account of a run: its two inputs, and how far their listing is written.
#[derive(Clone, Copy)]
struct Account {
    sheet: Input,
    list: Input,
    written: Written,
}

// Reads both inputs into rooms, and writes their listing through a third.
fn run<I: Read, W: Write>(
    rt: &(impl Files + Eprint),
    input: &mut I,
    output: &mut W,
    sheet: &mut [u8],
    list: &mut [u8],
    out: &mut [u8],
) -> Account
    requires in_bounds { (65536 < length sheet.old) × (65536 < length list.old) }
    requires in_bounds_2 { (192 ≤ length out.old) × (length out.old ≤ 65536) }
    ensures to_end { ToEnd result.sheet × ToEnd result.list }
    ensures reached { Reached (length (listing_by chosen (take result.sheet.len sheet.new) (take result.list.len list.new))) result.written }
    ensures names { Consumes (I.remaining input.old) (I.remaining input.new) (take result.list.len list.new) }
    ensures bytes { Wrote (W.contents output.old) (W.contents output.new) (listing_by chosen (take result.sheet.len sheet.new) (take result.list.len list.new)) result.written }
{
    let sheet_input = listing_input::read_sheet(rt, sheet);
    let list_input = listing_input::read_list(rt, input, list);
    let n = sheet_input.len;
    let m = list_input.len;
    let written = listing_writer::write_listing(rt, output, &sheet[..n], &list[..m], out);
    Account {
        sheet: sheet_input,
        list: list_input,
        written,
    }
}

fn main(rt: HostRuntime) {
    let mut sheet = listing_input::room();
    let mut list = listing_input::room();
    let mut out = [0u8; 65536];
    let mut input = rt.stdin();
    let mut output = rt.stdout();
    run(
        &rt,
        &mut input,
        &mut output,
        &mut sheet,
        &mut list,
        &mut out,
    );
}
