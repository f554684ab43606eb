// Blocks: four length bytes, a flag, and the content.
ghost use Rattle.std.specs.Prelude.{◌≡◌, ℕ, ◌+◌, ◌^◌, ◌<◌, ◌≤◌, length, IfSome, IfOk, IsNone};
ghost use Rattle.format.specs.Faults.{told};
ghost use Rattle.format.specs.Reading.{block_in};
ghost use Rattle.block.specs.Blocks.{end_of, end_at, LiesIn};
ghost use Rattle.block.specs.Told.{of_block, of_read};

use crate::fault::{BlockFault, ReadFault};
use crate::frame::Block;
use format::Part;

// The flag of a compressed block.
const COMPRESSED: u8 = 1;
// A length word below this is the end. A word becomes a length by `as`: std has no `From<u32>` for usize.
const LEAST_WORD: usize = 2;

// A border with too few bytes for a length word and a flag.
fn short_block(rest: Part<'_>) -> Result<Option<Block>, BlockFault>
    requires { length rest.bytes.now < 5 }
    ensures answer { end_of (told of_block result) ≡ block_in rest.entry.place rest.entry.bytes.now }
    ensures within { IfOk result IsNone }
{
    match rest.bytes {
        [] => Ok(None),
        [a, b, c, d] if (u32::from_le_bytes([*a, *b, *c, *d]) as usize) < LEAST_WORD => Ok(None),
        _ => Err(BlockFault::Short { place: rest.place }),
    }
}

// The block at the front of the rest of an area.
fn first_block(rest: Part<'_>) -> Result<Option<Block>, BlockFault>
    requires { rest.place + length rest.bytes.now < 2 ^ 64 }
    ensures answer { end_of (told of_block result) ≡ block_in rest.entry.place rest.entry.bytes.now }
    ensures within { IfOk result (λ o. IfSome o
        (LiesIn rest.entry.place (rest.entry.place + length rest.entry.bytes.now))) }
{
    let Part { bytes, place } = rest;
    let [a, b, c, d, flag, content @ ..] = bytes else {
        return short_block(rest);
    };
    let word = u32::from_le_bytes([*a, *b, *c, *d]) as usize;
    if word < LEAST_WORD {
        return Ok(None);
    }
    if content.len() < word - 1 {
        return Err(BlockFault::Short { place });
    }
    if *flag == COMPRESSED {
        return Err(BlockFault::Compressed { place });
    }
    Ok(Some(Block {
        start: place,
        end: place + 4 + word,
    }))
}

// The block at a border of an area, or nothing at the end.
pub fn read_block(area: &[u8], place: usize) -> Result<Option<Block>, ReadFault>
    ensures answer { end_of (told of_read result) ≡ end_at area.now place }
    ensures within { IfOk result (λ o. IfSome o (LiesIn place (length area.now))) }
{
    if place > area.len() {
        return Err(ReadFault::Outside { place });
    }
    let rest = Part {
        bytes: &area[place..],
        place,
    };
    Ok(first_block(rest)?)
}
