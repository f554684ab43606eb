// Lists each case of a table on standard input. A line has a name, a length and bytes in hexadecimal, parted by single spaces; zeros
// follow the bytes up to the length. A missing word is empty, a length that is no number is 0, and further words are not looked at.
#![tactic(auto)]

ghost use Rattle.std.specs.Prelude.{◌≤◌};

use std::alloc::{AllocError, Global};
use std::io;
use std::io::{BufRead, BufReader, Write};

// The value of a digit, or 0 for what is none. By hand, as in `writer_cases`: `hex` refuses what is no digit, and takes capital ones.
fn nibble(digit: u8) -> u8
    ensures { result ≤ 15 }
{
    match digit {
        b'0'..=b'9' => digit - b'0',
        b'a'..=b'f' => digit - b'a' + 10,
        _ => 0,
    }
}

// The bytes of a case. A digit without a second one is left out.
fn area_of(heap: Global, digits: &str, len: usize) -> Result<Vec<u8>, AllocError> {
    let mut area = Vec::new(heap);
    let (pairs, _) = digits.as_bytes().as_chunks::<2>();
    for [high, low] in pairs {
        area.push(nibble(*high) * 16 + nibble(*low))?;
    }
    // one by one, so that memory is asked for as it is needed: a length may be any number
    for _ in area.len()..len {
        area.push(0)?;
    }
    Ok(area)
}

fn run_case(rt: &HostRuntime, line: &str) -> io::Result<()> {
    // every line is a case: `split_once`, `parse` and `?` would refuse some
    let mut words = line.split(' ');
    let name = words.next().unwrap_or("");
    let len = words.next().unwrap_or("").parse::<usize>().unwrap_or(0);
    let digits = words.next().unwrap_or("");
    let area = area_of(rt.alloc(), digits, len)?;
    println!(rt; "{name}")?;
    let text = listing::list(rt.alloc(), &area)?;
    rt.stdout().write_all(&text)
}

// The same loop as in `writer_cases`: three lines are plainer than a crate for them.
fn main(rt: HostRuntime) -> io::Result<()> {
    for line in BufReader::new(rt.alloc(), rt.stdin())?.lines(rt.alloc()) {
        run_case(&rt, line?.as_str())?;
    }
    Ok(())
}
