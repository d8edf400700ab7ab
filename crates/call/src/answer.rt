// What a call answers, with its counts.
ghost use Rattle.std.specs.Prelude.{◌≡◌};
ghost use Rattle.refusal.specs.Table.{number_of};
ghost use Rattle.space.specs.Space.{Laid};
ghost use Rattle.call.specs.Answers.{stated, stated_of, opening_refused, tally_in};

use crate::state::{Course, State};
use refusal::Refusal;
use space::state::held;

// The four counts of a call.
#[repr(C)]
#[derive(Clone, Copy, Default)]
pub struct Tally {
    pub comparisons: u64,
    pub brought: u64,
    pub given: u64,
    pub held: u64,
}

// A call that is done: the operations (or leads) finished, and the output places written.
#[derive(Clone, Copy)]
pub struct Done {
    pub finished: u64,
    pub places: u64,
}

// A call that a refusal stopped, at its opening or on its way, with what it had done by then.
#[derive(Clone, Copy)]
pub struct Stopped {
    pub refusal: Refusal,
    pub finished: u64,
    pub places: u64,
}

pub type Answer = Result<Done, Stopped>;

#[derive(Clone, Copy)]
pub struct Returned {
    pub answer: Answer,
    pub tally: Tally,
}

// What an opening refusal gives: nothing is finished or written, and the old counts come back.
pub fn refused(refusal: Refusal, tally: Tally) -> Returned
    ensures { (stated result.answer ≡ opening_refused (number_of refusal)) × (result.tally ≡ tally) }
{
    let answer = Err(Stopped {
        refusal,
        finished: 0,
        places: 0,
    });
    Returned { answer, tally }
}

// What a call gives, from its last state and its buckets.
pub fn ended(s: State, b: &[usize]) -> Returned
    requires { Laid b.now }
    ensures { (stated result.answer ≡ stated_of s) × (result.tally ≡ tally_in s b.now) }
{
    let tally = Tally {
        comparisons: s.comparisons,
        brought: s.brought,
        given: s.given,
        held: held(b) as u64,
    };
    let answer = answered(s);
    Returned { answer, tally }
}

// The answer of a call that has come to its end.
fn answered(s: State) -> Answer
    ensures { stated result ≡ stated_of s }
{
    let finished = s.finished;
    let places = s.places as u64;
    match s.course {
        Course::Going | Course::Finished => Ok(Done { finished, places }),
        Course::Refused(refusal) => Err(Stopped {
            refusal,
            finished,
            places,
        }),
    }
}
