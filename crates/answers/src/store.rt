// The answers of the block store.
ghost use Rattle.answers.specs.Store.{WriteSaid, ReadSaid};

use blocks::read::Reading;
use blocks::write::Writing;

// The blocks written, 0 where there is a refusal. `finished` is always 0.
#[repr(C)]
#[derive(Clone, Copy)]
pub struct WriteAnswer {
    pub refusal: u64,
    pub finished: u64,
    pub blocks: u64,
}

// The setting and the terms read, all 0 where there is a refusal; the weights are one number, as a
// block's header has them. `finished` is always 0.
#[repr(C)]
#[derive(Clone, Copy)]
pub struct ReadAnswer {
    pub refusal: u64,
    pub finished: u64,
    pub p: u64,
    pub order: u64,
    pub n: u64,
    pub weights: u64,
    pub terms: u64,
}

impl From<Writing> for WriteAnswer {
    ghost from_gives = { WriteSaid };

    fn from(answer: Writing) -> WriteAnswer {
        match answer {
            Ok(written) => WriteAnswer {
                refusal: 0,
                finished: 0,
                blocks: written.blocks,
            },
            Err(refused) => WriteAnswer {
                refusal: u64::from(refused.refusal.number()),
                finished: refused.finished,
                blocks: 0,
            },
        }
    }
}

impl From<Reading> for ReadAnswer {
    ghost from_gives = { ReadSaid };

    fn from(answer: Reading) -> ReadAnswer {
        match answer {
            Ok(read) => ReadAnswer {
                refusal: 0,
                finished: 0,
                p: u64::from(read.p),
                order: u64::from(read.order),
                n: u64::from(read.n),
                weights: read.weights,
                terms: read.terms,
            },
            Err(refused) => ReadAnswer {
                refusal: u64::from(refused.refusal.number()),
                finished: refused.finished,
                p: 0,
                order: 0,
                n: 0,
                weights: 0,
                terms: 0,
            },
        }
    }
}
