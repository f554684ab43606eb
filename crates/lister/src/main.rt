// Lists the sstable of u64 values on standard input.
#![tactic(auto)]

ghost use Rattle.std.specs.Prelude.{◌≤◌, length, IfOk};

use listing::MOST_BYTES;
use std::io;
use std::io::{Read, Write};

// One byte more tells that there are more.
const READ_LIMIT: usize = MOST_BYTES + 1;

// Reads until the input ends or the buffer is full, and answers how many bytes came. By hand: the library's `read_to_end` behind
// a `take` promises no bound, and goes on after an interrupted read.
fn fill(input: &mut io::Stdin, buffer: &mut [u8]) -> io::Result<usize>
    ensures { IfOk result (λ n. n ≤ length buffer.old) }
{
    let mut n = 0;
    while n < buffer.len() {
        let more = input.read(&mut buffer[n..])?;
        if more == 0 {
            break;
        }
        n += more;
    }
    Ok(n)
}

fn main(rt: HostRuntime) -> io::Result<()> {
    let mut area = vec![in rt.alloc(); 0; READ_LIMIT]?;
    let n = fill(&mut rt.stdin(), &mut area)?;
    let text = listing::list(rt.alloc(), &area[0..n])?;
    rt.stdout().write_all(&text)
}
