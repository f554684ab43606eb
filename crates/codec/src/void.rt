// Values without content: no bytes, and a value at every place.
ghost use Rattle.std.specs.Prelude.{◌≡◌, ℕ, ◌≤◌, [], replicate};
ghost use Rattle.format.specs.Codecs.{most};
ghost use Rattle.format.specs.Void.{void_rule, void_bytes, void_opens, void_steps};
ghost use Rattle.format.proofs.VoidLaws.{void_back, void_short, void_within, void_held};

use crate::fault::CodecFault;
use crate::value::{Codec, MOST_VALUES};
use format::{Cursor, Part};
use std::alloc::{AllocError, Global};

#[derive(Drop)]
pub struct VoidValues {
    count: usize,
    ghost few: { count ≤ most },
}

impl Codec for VoidValues {
    type Value = ();

    ghost list = { λ c. replicate c.count tt };

    ghost rule = { void_rule };

    ghost bytes = { void_bytes };

    ghost opens = { void_opens };

    ghost steps = { void_steps };

    ghost back = { void_back };

    ghost short = { void_short };

    ghost within = { void_within };

    ghost held = { λ c. void_held c.count c.few };

    fn new(_heap: Global) -> Result<VoidValues, AllocError> {
        Ok(VoidValues { count: 0 })
    }

    fn allows(&self, _v: ()) -> bool {
        self.count < MOST_VALUES
    }

    fn size(&self) -> usize {
        0
    }

    fn size_with(&self, _v: ()) -> usize {
        0
    }

    fn write(&mut self, v: (), ordinal: u64) -> Result<(), CodecFault> {
        self.check(v, ordinal)?;
        self.count += 1;
        Ok(())
    }

    fn serialize_block(&self, _output: &mut [u8]) -> Option<usize> {
        Some(0)
    }

    fn clear(&mut self) {
        self.count = 0;
    }

    fn load(_part: Part<'_>) -> Result<(Cursor, usize), CodecFault> {
        Ok((Cursor::default(), 0))
    }

    fn next_value(_cursor: &mut Cursor, _part: Part<'_>) -> Result<Option<()>, CodecFault> {
        Ok(Some(()))
    }
}
