// Reads a script from standard input and writes its listing. A read or a write that fails is said on
// standard error, and is not taken for a script or a listing.
#![tactic(auto)]

use limits::{LISTING_BYTES, SCRIPT_BYTES};
use listing::entry::listing;
use programs::{fail, read_full};
use std::io;

// One byte more than the longest script: a longer input is not of the form, and is not cut.
const INPUT_BYTES: usize = SCRIPT_BYTES + 1;

fn main(rt: HostRuntime) -> io::Result<()> {
    // Kept: two buffers of a fixed size, as scripts and listings have a longest length: each `Vec` would add
    // an allocation that can fail.
    let mut script = [0u8; INPUT_BYTES];
    let bytes = match read_full(&mut rt.stdin(), &mut script) {
        Ok(bytes) => bytes,
        Err(error) => return fail(&rt, "standard input", error),
    };
    let mut out = [0u8; LISTING_BYTES];
    let Ok(length) = listing(&script[..bytes], &mut out) else {
        return Ok(());
    };
    write_listing(&rt, &out, length)
}

// Kept: the length beside the buffer: `get` tests it here, once; cut by the caller, the same test stands in `main`.
fn write_listing(
    rt: &(impl Print + Eprint + AllocGlobal),
    out: &[u8],
    length: usize,
) -> io::Result<()> {
    let Some(text) = out.get(..length) else {
        return Ok(());
    };
    rt.write_all(text)
        .or_else(|error| fail(rt, "standard output", error))
}
