// The listing of a script.
ghost use Rattle.std.specs.Prelude.{◌≡◌};
ghost use Rattle.listing.specs.Outcome.{ListingOutcome, listing_outcome};
ghost use Rattle.answers.specs.Lister.{listing_answered};

use answers::lister::ListingAnswer;
use listing::entry::listing;

// The entry `listing::listing`.
#[unsafe(no_mangle)]
pub extern "C" fn damselbuckle_listing(script: &[u8], out: &mut [u8]) -> ListingAnswer
    ensures { ◌≡◌ {A = ListingOutcome}
        (record { answer = listing_answered result; out = out.new })
        (listing_outcome script.now out.old) }
{
    let listed = listing(script, out);
    ListingAnswer::from(listed)
}
