// The answer of a listing.
ghost use Rattle.answers.specs.Lister.{ListingSaid};

use listing::entry::Listed;

// The bytes of the listing, 0 where there is a refusal. `finished` is always 0.
#[repr(C)]
#[derive(Clone, Copy)]
pub struct ListingAnswer {
    pub refusal: u64,
    pub finished: u64,
    pub length: u64,
}

impl From<Listed> for ListingAnswer {
    ghost from_gives = { ListingSaid };

    fn from(listed: Listed) -> ListingAnswer {
        match listed {
            Ok(length) => ListingAnswer {
                refusal: 0,
                finished: 0,
                length: length as u64,
            },
            Err(refused) => ListingAnswer {
                refusal: u64::from(refused.refusal.number()),
                finished: refused.finished,
                length: 0,
            },
        }
    }
}
