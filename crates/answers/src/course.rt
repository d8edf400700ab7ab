// The answers of runs and reductions.
ghost use Rattle.answers.specs.Course.{RunSaid, ReductionSaid};

use call::answer::Answer;

// The operations finished and the output places written; where there is a refusal, before it.
#[repr(C)]
#[derive(Clone, Copy)]
pub struct RunAnswer {
    pub refusal: u64,
    pub finished: u64,
    pub places: u64,
}

// The leads removed and the terms of the remainder written; where there is a refusal, before it.
#[repr(C)]
#[derive(Clone, Copy)]
pub struct ReductionAnswer {
    pub refusal: u64,
    pub leads: u64,
    pub terms: u64,
}

impl From<Answer> for RunAnswer {
    ghost from_gives = { RunSaid };

    fn from(answer: Answer) -> RunAnswer {
        match answer {
            Ok(done) => RunAnswer {
                refusal: 0,
                finished: done.finished,
                places: done.places,
            },
            Err(stopped) => RunAnswer {
                refusal: u64::from(stopped.refusal.number()),
                finished: stopped.finished,
                places: stopped.places,
            },
        }
    }
}

impl From<Answer> for ReductionAnswer {
    ghost from_gives = { ReductionSaid };

    fn from(answer: Answer) -> ReductionAnswer {
        let a = RunAnswer::from(answer);
        ReductionAnswer {
            refusal: a.refusal,
            leads: a.finished,
            terms: a.places,
        }
    }
}
