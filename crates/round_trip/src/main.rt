// Builds an sstable of u64 values from the lines on standard input, and lists it.
#![tactic(auto)]

use building::{OUTPUT_LEN, build};
use std::io;
use std::io::{Read, Write};

fn main(rt: HostRuntime) -> io::Result<()> {
    let mut text = Vec::new(rt.alloc());
    rt.stdin().read_to_end(&mut text)?;
    // taken here: a want of memory for it ends the program, and is no refusal of the text
    let mut output = vec![in rt.alloc(); 0; OUTPUT_LEN]?;
    match build(rt.alloc(), &text, &mut output) {
        Ok(len) => {
            let listing = listing::list(rt.alloc(), &output[..len])?;
            rt.stdout().write_all(&listing)
        }
        Err(fault) => println!(rt; "{fault}"),
    }
}
