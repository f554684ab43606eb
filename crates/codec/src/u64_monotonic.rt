// 64-bit numbers that never fall within a block: their count, then each one's rise over the one before, the first over 0.
ghost use Rattle.std.specs.Prelude.{◌≡◌, ℕ, ◌≤◌, [], length};
ghost use Rattle.format.specs.Codecs.{Allowed, most};
ghost use Rattle.format.specs.Monotonic.{u64_rule, u64_bytes, u64_opens, u64_steps};
ghost use Rattle.format.proofs.MonotonicLaws.{u64_back, u64_short, u64_within};

use crate::fault::CodecFault;
use crate::rises::Rises;
use crate::value::{Codec, MOST_VALUES};
use crate::{sums, vint};
use format::{Cursor, Part};
use std::alloc::{AllocError, Global};

#[derive(Drop)]
pub struct U64MonotonicValues {
    vals: Rises,
    ghost few: { length vals ≤ most },
    ghost allowed: { Allowed u64_rule vals },
}

impl Codec for U64MonotonicValues {
    type Value = u64;

    ghost list = { λ c. c.vals };

    ghost rule = { u64_rule };

    ghost bytes = { u64_bytes };

    ghost opens = { u64_opens };

    ghost steps = { u64_steps };

    ghost back = { u64_back };

    ghost short = { u64_short };

    ghost within = { u64_within };

    ghost held = { λ c. (c.allowed, c.few) };

    fn new(heap: Global) -> Result<U64MonotonicValues, AllocError> {
        Ok(U64MonotonicValues {
            vals: Rises::new(heap)?,
        })
    }

    fn allows(&self, v: u64) -> bool {
        self.vals.last().is_none_or(|last| last <= v) && self.vals.len() < MOST_VALUES
    }

    fn size(&self) -> usize {
        self.vals.size()
    }

    fn size_with(&self, v: u64) -> usize {
        self.vals.size_with(v)
    }

    fn write(&mut self, v: u64, ordinal: u64) -> Result<(), CodecFault> {
        self.check(v, ordinal)?;
        self.vals.push(v);
        Ok(())
    }

    fn serialize_block(&self, output: &mut [u8]) -> Option<usize> {
        self.vals.serialize(output)
    }

    fn clear(&mut self) {
        self.vals.clear();
    }

    fn load(part: Part<'_>) -> Result<(Cursor, usize), CodecFault> {
        let (next, left) = vint::deserialize_read(part)?;
        let first = Cursor {
            next,
            left,
            ..Cursor::default()
        };
        sums::whole(first, part)
    }

    fn next_value(cursor: &mut Cursor, part: Part<'_>) -> Result<Option<u64>, CodecFault> {
        sums::rise(cursor, part)
    }
}
