// What a call keeps on its way, beside the buckets.
ghost use Rattle.std.specs.Prelude.{◌≡◌, ◌<◌, ◌≤◌};
ghost use Rattle.call.specs.States.{begun, counted, brought, gave, finished_one, turned, closed, halted, goes_on, Countable};

use refusal::Refusal;

// Whether a call goes on.
#[derive(Clone, Copy)]
pub enum Course {
    Going,
    Finished,
    Refused(Refusal),
}

// The counts of the tally but for the terms held, the output places written, how many operations (or
// leads) are finished, and whether the call goes on.
#[derive(Clone, Copy)]
pub struct State {
    pub comparisons: u64,
    pub brought: u64,
    pub given: u64,
    pub places: usize,
    pub finished: u64,
    pub course: Course,
}

impl State {
    // The state at the beginning.
    pub fn new() -> Self
        ensures { result ≡ begun }
    {
        State {
            comparisons: 0,
            brought: 0,
            given: 0,
            places: 0,
            finished: 0,
            course: Course::Going,
        }
    }

    // So many comparisons are made.
    pub fn compare(mut self, comparisons: u64) -> Self
        requires { Countable self.comparisons comparisons }
        ensures { result ≡ counted self comparisons }
    {
        self.comparisons += comparisons;
        self
    }

    // So many terms are brought in.
    pub fn bring(mut self, terms: usize) -> Self
        requires { Countable self.brought terms }
        ensures { result ≡ brought self terms }
    {
        self.brought += terms as u64;
        self
    }

    // So many terms are given out, in so many output places.
    pub fn give(mut self, terms: usize, places: usize) -> Self
        requires { Countable self.given terms × Countable self.places places }
        ensures { result ≡ gave self terms places }
    {
        self.given += terms as u64;
        self.places += places;
        self
    }

    // An operation is finished, or a lead removed.
    pub fn finish(mut self) -> Self
        requires { Countable self.finished 1 }
        ensures { result ≡ finished_one self }
    {
        self.finished += 1;
        self
    }

    // There is nothing more to do.
    pub fn close(self) -> Self
        ensures { result ≡ closed self }
    {
        self.with_course(Course::Finished)
    }

    // The call is stopped by a refusal.
    pub fn halt(self, refusal: Refusal) -> Self
        ensures { result ≡ halted self refusal }
    {
        self.with_course(Course::Refused(refusal))
    }

    // The course is set, and nothing else changes.
    fn with_course(self, course: Course) -> Self
        ensures { result ≡ turned self course }
    {
        State { course, ..self }
    }

    // Whether the call goes on.
    pub fn goes_on(self) -> bool
        ensures { result ≡ goes_on self.course }
    {
        matches!(self.course, Course::Going)
    }
}
