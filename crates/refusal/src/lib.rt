// The refusals by cause, each with its number in document 01 or 02. The numbers have gaps.
#![tactic(auto)]

ghost use Rattle.std.specs.Prelude.{◌≡◌, true};
ghost use Rattle.refusal.specs.Table.{number_of, listed};
ghost use Rattle.refusal.specs.Calls.{unfinished};

// The causes, each with its number.
#[derive(Clone, Copy, Debug, PartialEq, Eq)]
pub enum Refusal {
    NotPrime = 1,
    BadOrder = 2,
    BadVariables = 3,
    BadCoefficient = 4,
    BadLayout = 5,
    NotFalling = 6,
    ZeroDivisor = 7,
    BadShape = 8,
    BadOperation = 9,
    NoOutput = 10,
    TooManyTerms = 11,
    ExponentOver = 12,
    StepLimit = 13,
    NotBlocks = 14,
    BadCheck = 15,
    BadBlock = 16,
    BadScript = 17,
    BadWeight = 24,
}

// The cause of a number that a check gave: one of the table's.
// Kept: may not change: `refusal_of` cannot fail, where `TryFrom` would answer a Result.
pub fn refusal_of(number: u32) -> Refusal
    requires { listed number ≡ true }
    ensures { number_of result ≡ number }
{
    match number {
        1 => Refusal::NotPrime,
        2 => Refusal::BadOrder,
        3 => Refusal::BadVariables,
        4 => Refusal::BadCoefficient,
        5 => Refusal::BadLayout,
        6 => Refusal::NotFalling,
        7 => Refusal::ZeroDivisor,
        8 => Refusal::BadShape,
        9 => Refusal::BadOperation,
        10 => Refusal::NoOutput,
        11 => Refusal::TooManyTerms,
        12 => Refusal::ExponentOver,
        13 => Refusal::StepLimit,
        14 => Refusal::NotBlocks,
        15 => Refusal::BadCheck,
        16 => Refusal::BadBlock,
        17 => Refusal::BadScript,
        _ => Refusal::BadWeight,
    }
}

impl Refusal {
    // Its number, as documents 01 and 02 have it: the discriminant.
    // Kept: no plainer as `From`: `u32::from(refused.refusal)` does not say that the number is the documents'.
    pub fn number(self) -> u32
        ensures { result ≡ number_of self }
    {
        self as u32
    }
}

// What a call gives that is refused before it began: the cause, and that 0 operations are finished.
#[derive(Clone, Copy, Debug, PartialEq, Eq)]
pub struct Refused {
    pub refusal: Refusal,
    pub finished: u64,
}

impl From<Refusal> for Refused {
    ghost from_gives = { unfinished };

    fn from(refusal: Refusal) -> Refused {
        Refused {
            refusal,
            finished: 0,
        }
    }
}
