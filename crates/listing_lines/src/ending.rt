// The last line of a listing: the cost, or a refusal.
ghost use Rattle.std.specs.Prelude.{◌≤◌, ◌≡◌};
ghost use Rattle.geobucket.specs.Events.{levels, bound};
ghost use Rattle.listing_lines.specs.Put.{Put};
ghost use Rattle.listing_lines.specs.Listing.{cost_text, refused_text};

use crate::put::{put, put_byte, put_decimal};

// The number M of levels for n terms.
#[tactic(auto, using(std::proofs::lemmas::Bool::Decides::nat_tests), unfolding(geobucket::specs::Events::level_from))]
fn level_count(n: u64) -> u64
    ensures { (result ≡ levels n) × (result ≤ 6) }
{
    match n {
        0..=4 => 1,
        5..=16 => 2,
        17..=64 => 3,
        65..=256 => 4,
        257..=1024 => 5,
        _ => 6,
    }
}

// The most comparisons that n terms can cost.
fn cost_bound(n: u64) -> u64
    requires { n ≤ 100000000000000000 }
    ensures { result ≡ bound n }
{
    let m = level_count(n);
    6 * n * m
}

// Puts `cost C of B`.
pub fn put_cost(comparisons: u64, brought: u64, out: &mut [u8], at: usize) -> usize
    requires { brought ≤ 100000000000000000 }
    ensures { Put (cost_text comparisons brought) at out.old out.new result }
{
    let a = put(b"cost ", out, at);
    let b = put_decimal(comparisons, out, a);
    let c = put(b" of ", out, b);
    let d = put_decimal(cost_bound(brought), out, c);
    put_byte(b'\n', out, d)
}

// Puts `refused R at K`.
// Kept: may not change: the clause `Put (refused_text number finished)` is of every number, and a `Refusal` here would
// be a narrower type than its `u32`.
pub fn put_refused(number: u32, finished: u64, out: &mut [u8], at: usize) -> usize
    ensures { Put (refused_text number finished) at out.old out.new result }
{
    let a = put(b"refused ", out, at);
    let b = put_decimal(u64::from(number), out, a);
    let c = put(b" at ", out, b);
    let d = put_decimal(finished, out, c);
    put_byte(b'\n', out, d)
}
