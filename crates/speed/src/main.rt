// Writes a million entries and lists them, five times: tells the sstable's length and a checksum on standard output, the
// best times on standard error.
#![tactic(auto)]

use anyhow::{Context, Result};
use block::reader::DeltaReader;
use codec::u64_monotonic::U64MonotonicValues;
use std::alloc::Global;
use std::time::{Duration, Instant};
use writer::writer::Writer;

const ENTRIES: usize = 1_000_000;

const KEY_LEN: usize = 24;

const OUTPUT_LEN: usize = 16_777_216;

// A pseudorandom number (xorshift64*). Of its own, since the same keys are made elsewhere to compare with.
fn next_random(state: &mut u64) -> u64 {
    *state ^= *state >> 12;
    *state ^= *state << 25;
    *state ^= *state >> 27;
    (*state).wrapping_mul(0x2545_F491_4F6C_DD1D)
}

// A rising counter in digits, and up to eight more bytes.
fn make_keys(heap: Global) -> Result<Vec<Vec<u8>>> {
    let mut keys = Vec::with_capacity(heap, ENTRIES)?;
    let mut state = 0x9E37_79B9_7F4A_7C15u64;
    let mut counter = 0u64;
    for _ in 0..ENTRIES {
        counter = counter.wrapping_add(1 + next_random(&mut state) % 16);
        let mut digits = String::with_capacity(heap, KEY_LEN)?;
        write!(digits, "{counter:016x}")?;
        let mut key = digits.into_bytes();
        let tail_len = (next_random(&mut state) % 9) as usize;
        let tail = next_random(&mut state).to_be_bytes();
        key.extend_from_slice(&tail[..tail_len])?;
        keys.push(key)?;
    }
    Ok(keys)
}

// The length of the sstable; values rise by 3.
fn write(heap: Global, keys: &[Vec<u8>], output: &mut [u8]) -> Result<usize> {
    let mut writer = Writer::<U64MonotonicValues>::new(heap)?;
    let mut value = 0u64;
    for key in keys {
        writer.insert(key, value, output)?;
        value = value.wrapping_add(3);
    }
    writer.finish(output)?;
    Ok(writer.written_bytes())
}

// The sum of the values and of the lengths of the keys.
fn list(area: &[u8]) -> u64 {
    let mut reader = DeltaReader::<U64MonotonicValues>::new();
    let mut sum = 0u64;
    while let Ok(Some(delta)) = reader.advance(area) {
        let key_len = reader.key().map_or(0, |key| key.len());
        // by `as`, as in `make_keys`: std has no `From` between u64 and usize
        sum = sum.wrapping_add(delta.value).wrapping_add(key_len as u64);
    }
    sum
}

// What a run made, and how long it took.
#[derive(Drop)]
struct Run {
    len: usize,
    sum: u64,
    write: Duration,
    list: Duration,
}

fn run_once(rt: &HostRuntime, keys: &[Vec<u8>], output: &mut [u8]) -> Result<Run> {
    let start = Instant::now(rt)?;
    let len = write(rt.alloc(), keys, output)?;
    let write = start.elapsed(rt)?;
    let sstable = output.get(..len).context("the sstable is not there")?;
    let start = Instant::now(rt)?;
    let sum = list(sstable);
    let list = start.elapsed(rt)?;
    Ok(Run {
        len,
        sum,
        write,
        list,
    })
}

fn main(rt: HostRuntime) -> Result<()> {
    let keys = make_keys(rt.alloc())?;
    let mut output = vec![in rt.alloc(); 0; OUTPUT_LEN]?;
    let mut best = run_once(&rt, &keys, &mut output)?;
    for _ in 1..5 {
        let next = run_once(&rt, &keys, &mut output)?;
        best.write = best.write.min(next.write);
        best.list = best.list.min(next.list);
    }
    println!(rt; "{} bytes, checksum {}", best.len, best.sum)?;
    let write = best.write.as_nanos();
    let list = best.list.as_nanos();
    eprintln!(rt; "write {write} ns, list {list} ns")?;
    Ok(())
}
