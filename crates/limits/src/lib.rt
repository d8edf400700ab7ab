// The limits that documents 01 and 02 name, each once.
#![tactic(auto)]

// "p may go up to 2,147,483,647."
pub const LARGEST_PRIME: u32 = 2147483647;

// "n from 1 to 6"
pub const MOST_VARIABLES: u32 = 6;

// "Each variable gets a weight from 1 to 16": how many are lent, x1's first, and the largest.
pub const WEIGHTS: usize = 6;

pub const LARGEST_WEIGHT: u32 = 16;

// "The bucket space has 5,460 places for words and for coefficients": the six buckets' capacities.
pub const BUCKET_PLACES: usize = 5460;

// "The work space, 8,192 places for each": two areas for each of buckets 1 to 5, and room past them.
pub const WORK_PLACES: usize = 8192;

// "11: terms held + terms to add > 4,096", and the most terms that blocks hold.
pub const MOST_TERMS: usize = 4096;

// "operations not whole pairs or over 16,777,216 of them"
pub const MOST_OPERATIONS: usize = 16777216;

// "a step limit over 8,796,093,022,208"
pub const MOST_STEPS: u64 = 8796093022208;

// "13 is never given with an allowed step limit of 4,398,046,511,104 (128 to the sixth) or more": as many as there
// are monomials in six variables. No code needs it; it is for callers.
pub const SUFFICIENT_STEPS: u64 = 4398046511104;

// "At most 16,384 bytes" of a script.
pub const SCRIPT_BYTES: usize = 16384;

// A term, and a line, takes at least four bytes of a script: the most terms, and the most operations.
pub const SCRIPT_TERMS: usize = 4096;

// The starts of as many polynomials.
pub const SCRIPT_STARTS: usize = 4097;

// The numbers of as many operations.
pub const SCRIPT_NUMBERS: usize = 8192;

// Bytes that every listing fits in.
pub const LISTING_BYTES: usize = 65536;
