// Writes each case of a table on standard input. A line has a codec and entries, each behind a single space; an entry has a key in
// hexadecimal, or - for the empty one, a colon, and a value. The answer is the bytes of the sstable, or the first fault.
#![tactic(auto)]

mod case_error;
mod parse;

use case_error::CaseError;
use codec::range::RangeValues;
use codec::u64_monotonic::U64MonotonicValues;
use codec::value::Codec;
use codec::void::VoidValues;
use parse::{Parse, first_two, key_of};
use std::alloc::Global;
use std::io;
use std::io::{BufRead, BufReader, Write};
use writer::writer::Writer;

const OUTPUT_LEN: usize = 65_536;

// How many bytes the sstable of a line has.
fn write_case<C: Codec + Drop>(
    heap: Global,
    line: &str,
    output: &mut [u8],
) -> Result<usize, CaseError>
where
    C::Value: Parse,
{
    let mut writer = Writer::<C>::new(heap)?;
    for entry in line.split(' ').skip(1) {
        let (key, value) = first_two(entry, ':');
        writer.insert(&key_of(heap, key)?, C::Value::parse(value), output)?;
    }
    writer.finish(output)?;
    Ok(writer.written_bytes())
}

// Any codec but u64 and range is void.
fn run_case(rt: &HostRuntime, line: &str, output: &mut [u8]) -> io::Result<()> {
    let heap = rt.alloc();
    let written = match line.split(' ').next() {
        Some("u64") => write_case::<U64MonotonicValues>(heap, line, output),
        Some("range") => write_case::<RangeValues>(heap, line, output),
        _ => write_case::<VoidValues>(heap, line, output),
    };
    match written {
        Ok(len) => {
            let sstable = &output[..len.min(output.len())];
            let mut digits = hex::encode(heap, sstable)?;
            digits.push('\n')?;
            rt.stdout().write_all(digits.as_bytes())
        }
        Err(error @ CaseError::Refused(_)) => println!(rt; "{error}"),
        Err(CaseError::Memory(error)) => Err(error.into()),
    }
}

// The same loop as in `lister_cases`: three lines are plainer than a crate for them.
fn main(rt: HostRuntime) -> io::Result<()> {
    let mut output = vec![in rt.alloc(); 0; OUTPUT_LEN]?;
    for line in BufReader::new(rt.alloc(), rt.stdin())?.lines(rt.alloc()) {
        run_case(&rt, line?.as_str(), &mut output)?;
    }
    Ok(())
}
