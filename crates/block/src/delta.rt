// Reading entry by entry.
ghost use Rattle.codec.specs.Meanings.{meaning};
ghost use Rattle.std.specs.Prelude.{◌≡◌, ℕ, ◌+◌, ◌≤◌, length, IfOk, IfSome};
ghost use Rattle.std.specs.Option.{option_map};
ghost use Rattle.format.specs.Faults.{told};
ghost use Rattle.format.specs.Keys.{longest};
ghost use Rattle.format.specs.Reading.{step_at, from, reading, key_at};
ghost use Rattle.block.specs.Blocks.{values_in, IsWithin};
ghost use Rattle.block.specs.Entries.{step_of, step_from, border_of, IsAtEntry};
ghost use Rattle.block.specs.Told.{of_block};
ghost use Rattle.block.specs.Readers.{Advances, Sound};

use crate::block_reader::read_block;
use crate::fault::{BlockFault, ReadFault};
use crate::found::Delta;
use crate::frame::{Block, HEAD_LEN};
use crate::position::Position;
use crate::reader::{DeltaReader, Phase};
use codec::value::Codec;
use format::Cursor;
use std::marker::PhantomData;

// The values of a block: where their reading begins, and how many bytes they take.
fn load_values<C: Codec>(block: Block, area: &[u8]) -> Result<(Cursor, usize), BlockFault>
    requires { IsWithin area.now block }
    ensures answer { told of_block result ≡ values_in (meaning C.Codec) area.now block }
    ensures within { IfOk result (λ p. block.start + 5 + p.1 ≤ block.end) }
{
    Ok(C::load(block.content(area))?)
}

impl Position {
    // Stands at the first entry of the block at the border where the block before ends, and answers how many bytes of the
    // key before it may keep: none. Nothing at the end.
    fn open_block<C: Codec>(&mut self, area: &[u8]) -> Result<Option<usize>, ReadFault>
        requires { self.old.finish ≤ length area.now }
        ensures answer { step_from (meaning C.Codec) area.now result self.new
            ≡ border_of (meaning C.Codec) area.now self.old }
        ensures within { IfOk result (λ o. IfSome o (IsAtEntry area.now self.new)) }
    {
        let Some(block) = read_block(area, self.finish)? else {
            return Ok(None);
        };
        let (values, consumed) = load_values::<C>(block, area)?;
        let next = block.start + HEAD_LEN + consumed;
        if next >= block.end {
            return Ok(None);
        }
        self.start = block.start;
        self.finish = block.end;
        self.next = next;
        self.cursor = values;
        Ok(Some(0))
    }

    // Stands at the next entry, and answers how many bytes of the key before it may keep. Nothing at the end.
    fn find_entry<C: Codec>(&mut self, area: &[u8]) -> Result<Option<usize>, ReadFault>
        ensures answer { step_from (meaning C.Codec) area.now result self.new
            ≡ step_at (meaning C.Codec) area.now self.old }
        ensures within { IfOk result (λ o. IfSome o (IsAtEntry area.now self.new)) }
    {
        if area.len() < self.finish {
            return Err(ReadFault::Outside { place: self.start });
        }
        if self.next == self.finish {
            return self.open_block::<C>(area);
        }
        Ok(Some(self.key_len()))
    }

    // One step of a reading.
    fn step<'a, C: Codec>(
        &mut self,
        area: &'a [u8],
    ) -> Result<Option<Delta<'a, C::Value>>, ReadFault>
        ensures { step_of result self.new ≡ step_at (meaning C.Codec) area.now self.old }
    {
        let Some(keep_max) = self.find_entry::<C>(area)? else {
            return Ok(None);
        };
        Ok(Some(self.read_entry::<C>(area, keep_max)?))
    }
}

impl<C: Codec> DeltaReader<C> {
    // A reader that stands at a block border of an area.
    pub fn at(place: usize) -> DeltaReader<C>
        ensures { result ≡ reading (from place) }
    {
        DeltaReader {
            position: Position::at(place),
            phase: Phase::Reading,
            codec: PhantomData,
        }
    }

    // A reader that stands at the front of an area.
    pub fn new() -> DeltaReader<C>
        ensures { result ≡ reading (from 0) }
    {
        DeltaReader::at(0)
    }

    // The key of the entry that the last advance answered.
    pub fn key(&self) -> Option<&[u8]>
        ensures value { option_map (λ x. x.now) result ≡ key_at self.now }
        ensures short { IfSome result (λ key. length key.now ≤ longest) }
        ensures sound { Sound self.now }
    {
        match self.phase {
            Phase::Reading => self.position.key(),
            _ => None,
        }
    }

    // The next entry, or nothing at the end; after the end nothing, and after a fault that fault.
    pub fn advance<'a>(&mut self, area: &'a [u8]) -> Result<Option<Delta<'a, C::Value>>, ReadFault>
        ensures { Advances (meaning C.Codec) area.now self.old result self.new }
    {
        match self.phase {
            Phase::Ended => return Ok(None),
            Phase::Faulted(fault) => return Err(fault),
            Phase::Reading => {}
        }
        let found = self.position.step::<C>(area);
        match found {
            Ok(Some(_)) => {}
            Ok(None) => self.phase = Phase::Ended,
            Err(fault) => self.phase = Phase::Faulted(fault),
        }
        found
    }
}
