// The entry: the listing of a script.
ghost use Rattle.std.specs.Prelude.{◌≡◌};
ghost use Rattle.listing.specs.Outcome.{listing_stated, ListingOutcome, listing_outcome};

use crate::whole::put_listing;
use limits::LISTING_BYTES;
use refusal::{Refusal, Refused};

// The listing is written, so many bytes long; or refused, with 0 operations finished.
pub type Listed = Result<usize, Refused>;

// Writes the listing of a script, any bytes of any length, to the start of out. With fewer than 65,536
// bytes lent it gives refusal 10 and writes nothing.
pub fn listing(script: &[u8], out: &mut [u8]) -> Listed
    ensures { ◌≡◌ {A = ListingOutcome} (record { answer = listing_stated result; out = out.new }) (listing_outcome script.now out.old) }
{
    if out.len() < LISTING_BYTES {
        return Err(Refusal::NoOutput.into());
    }
    Ok(put_listing(script, out))
}
