// What the bytes of an sstable of u64 values tell, as text: a line for each entry, then one for the end or the fault.
#![tactic(auto)]

ghost use Rattle.std.specs.Prelude.{◌≡◌, ℕ, ◌≤◌, ◌++◌, length, string_bytes, IfOk, OnOk};
ghost use Rattle.format.specs.Monotonic.{u64_meaning};
ghost use Rattle.format.specs.Reading.{read_area};
ghost use Rattle.listing.specs.Listing.{listed, listing as listing_of};

mod text;

use block::found::Delta;
use block::reader::DeltaReader;
use codec::u64_monotonic::U64MonotonicValues;
use std::alloc::{AllocError, Global};
use text::{push_last_line, push_line};

// An area with more bytes is not read.
pub const MOST_BYTES: usize = 65_536;

// The lines of an area behind what `text` holds.
fn push_entries(text: &mut String, area: &[u8]) -> Result<(), AllocError>
    requires { length area.now ≤ 65536 }
    ensures { OnOk result (string_bytes text.new ≡ string_bytes text.old ++ listed 0 (read_area u64_meaning area.now)) }
{
    let mut reader = DeltaReader::<U64MonotonicValues>::new();
    // one more than the last ordinal, which is gone when the end is told
    let mut count = 0;
    let counted = loop {
        match reader.advance(area) {
            Ok(Some(delta)) => {
                let key = reader.key().unwrap();
                push_line(text, delta.ordinal, key, delta.value)?;
                count = delta.ordinal + 1;
            }
            Ok(None) => break Ok(count),
            Err(fault) => break Err(fault),
        }
    };
    push_last_line(text, counted)
}

// The listing of an area, or want of memory.
pub fn list(heap: Global, area: &[u8]) -> Result<Vec<u8>, AllocError>
    ensures { IfOk result (λ t. t.items ≡ listing_of area.now) }
{
    let mut text = String::new(heap);
    if area.len() > MOST_BYTES {
        text.push_str("long\n")?;
    } else {
        push_entries(&mut text, area)?;
    }
    Ok(text.into_bytes())
}
