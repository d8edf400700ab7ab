// Writes a polynomial to a file as blocks, reads the file back, and prints what it wrote and read. The
// file `stdout` is what it must write.
#![tactic(auto)]

mod show; // bytes and terms as text
mod store; // the file

use blocks::read::read_blocks;
use blocks::write::write_blocks;
use refusal::Refused;
use std::io;
use std::rt::Files;

// 3*x1^2 + x1*x2 + x2^2 + x1 + x2 in dp and two variables.
const WORDS: [u64; 5] = [
    0x0002_0000_0000_0002,
    0x0002_0000_0000_0101,
    0x0002_0000_0000_0200,
    0x0001_0000_0000_0001,
    0x0001_0000_0000_0100,
];

const COEFS: [u32; 5] = [3, 1, 1, 1, 1];

const ONES: [u32; 6] = [1, 1, 1, 1, 1, 1];

// Where x1 has weight 2: 3*x1^2 + x1*x2 + x1 + x2^2 + x2.
const DOUBLE: [u32; 6] = [2, 1, 1, 1, 1, 1];

const WEIGHTED: [u64; 5] = [
    0x0004_0000_0000_0002,
    0x0003_0000_0000_0101,
    0x0002_0000_0000_0001,
    0x0002_0000_0000_0200,
    0x0001_0000_0000_0100,
];

fn main(rt: HostRuntime) -> io::Result<()> {
    println!(&rt; "five terms, p = 7, dp, two variables")?;
    round_trip(&rt, &ONES, &WORDS, &COEFS)?;
    println!(&rt; "zero")?;
    round_trip(&rt, &ONES, &[], &[])?;
    println!(&rt; "five terms, weight 2 for x1")?;
    round_trip(&rt, &DOUBLE, &WEIGHTED, &COEFS)?;
    println!(&rt; "weight 2 for x6, beyond n")?;
    round_trip(&rt, &[1, 1, 1, 1, 1, 2], &WORDS, &COEFS)?;
    println!(&rt; "terms that rise")?;
    round_trip(
        &rt,
        &ONES,
        &[0x0001_0000_0000_0001, 0x0002_0000_0000_0002],
        &[1, 1],
    )?;
    println!(&rt; "a file with a byte changed")?;
    damaged(&rt)
}

// The polynomial written to the file and read back.
fn round_trip(
    rt: &(impl Files + Print + Eprint + AllocGlobal),
    weights: &[u32],
    words: &[u64],
    coefs: &[u32],
) -> io::Result<()> {
    // Kept: fixed arrays, here and below, as the lengths are known (one block, two, the terms of one): each `Vec`
    // would add an allocation that can fail.
    let mut bytes = [0u8; 512];
    match write_blocks(7, 3, 2, weights, words, coefs, &mut bytes) {
        Ok(written) => {
            println!(rt; "blocks {}", written.blocks)?;
            store::save(rt, &bytes)?;
            show::block(rt, &bytes)?;
            read_back(rt)
        }
        Err(refused) => turned_away(rt, refused),
    }
}

// The number of a refusal.
fn turned_away(rt: &impl Print, refused: Refused) -> io::Result<()> {
    println!(rt; "refused {}", refused.refusal.number())
}

// What the file holds, read back.
fn read_back(rt: &(impl Files + Print + Eprint + AllocGlobal)) -> io::Result<()> {
    let mut bytes = [0u8; 1024];
    let len = store::load(rt, &mut bytes)?;
    show_read(rt, &bytes[..len])
}

// What reading gives.
fn show_read(rt: &impl Print, bytes: &[u8]) -> io::Result<()> {
    let mut words = [0u64; 41];
    let mut coefs = [0u32; 41];
    match read_blocks(bytes, &mut words, &mut coefs) {
        Ok(read) => {
            println!(rt; "p {}", read.p)?;
            println!(rt; "order {}", read.order)?;
            println!(rt; "n {}", read.n)?;
            show::weights(rt, read.weights)?;
            println!(rt; "terms {}", read.terms)?;
            show::terms(rt, &words, &coefs, read.terms)
        }
        Err(refused) => turned_away(rt, refused),
    }
}

// The file with its first byte changed.
fn damaged(rt: &(impl Files + Print + Eprint + AllocGlobal)) -> io::Result<()> {
    let mut bytes = [0u8; 512];
    store::load(rt, &mut bytes)?;
    bytes[0] = 1;
    show_read(rt, &bytes)
}
