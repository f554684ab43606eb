// Builds an sstable of u64 values from the lines on standard input, and writes it to standard output; or tells why not
// on standard error.
#![tactic(auto)]

use anyhow::bail;
use building::{OUTPUT_LEN, build};
use std::io::{Read, Write};

fn main(rt: HostRuntime) -> anyhow::Result<()> {
    let mut text = Vec::new(rt.alloc());
    rt.stdin().read_to_end(&mut text)?;
    // taken here: a want of memory for it ends the program, and is no refusal of the text
    let mut output = vec![in rt.alloc(); 0; OUTPUT_LEN]?;
    match build(rt.alloc(), &text, &mut output) {
        Ok(len) => rt.stdout().write_all(&output[..len])?,
        Err(fault) => {
            eprintln!(rt; "{fault}")?;
            bail!("nothing is built");
        }
    }
    Ok(())
}
