// Where a reading stands between two entries.
ghost use Rattle.std.specs.Prelude.{◌≡◌, ℕ, ◌+◌, ◌<◌, ◌≤◌, ◌++◌, length, take, Some, IfSome};
ghost use Rattle.std.specs.Option.{option_map};
ghost use Rattle.format.specs.Keys.{longest};
ghost use Rattle.format.specs.Reading.{from as from_place, key_of};
ghost use Rattle.block.specs.Positions.{IsPlace, last_of};

use crate::frame::Block;
use crate::keys::Key;
use format::Cursor;
use std::marker::Model;

#[derive(Drop)]
pub(crate) struct Position {
    // the length word of the block being read or last read
    pub(crate) start: usize,
    // where that block ends
    pub(crate) finish: usize,
    // the next header; where the block is used up, its end
    pub(crate) next: usize,
    // where the reading of the block's values stands
    pub(crate) cursor: Cursor,
    // the key before, unless none was read
    pub(crate) last: Option<Key>,
    // how many entries were read
    pub(crate) ordinal: u64,
}

impl Model for Position {
    ghost use Rattle.format.specs.Reading as reading;

    ghost Value = { reading.Position };

    ghost use Rattle.block.specs.Positions.{position_of, IsPosition};

    ghost view = { position_of };

    ghost invariant = { IsPosition };
}

impl Position {
    // At a block border of an area.
    pub(crate) fn at(place: usize) -> Position
        ensures { result ≡ from_place place }
    {
        Position {
            start: place,
            finish: place,
            next: place,
            cursor: Cursor::default(),
            last: None,
            ordinal: 0,
        }
    }

    // The block being read.
    pub(crate) fn block(&self) -> Block
        requires { self.now.next < self.now.finish }
        ensures start { result.start ≡ self.now.start }
        ensures end { result.end ≡ self.now.finish }
        ensures some { result.start + 5 < result.end }
    {
        Block {
            start: self.start,
            end: self.finish,
        }
    }

    // The key of the entry that was read last.
    pub(crate) fn key(&self) -> Option<&[u8]>
        ensures value { option_map (λ x. x.now) result ≡ self.now.last }
        ensures short { IfSome result (λ key. length key.now ≤ longest) }
        ensures sound { IsPlace self.now }
    {
        self.last.as_ref().map(|key| key.as_slice())
    }

    // How many bytes that key has; none where there is no key.
    pub(crate) fn key_len(&self) -> usize
        ensures { result ≡ length (key_of self.now.last) }
    {
        self.last.as_ref().map_or(0, |key| key.len())
    }
}

// Keeps the front of the key before, and puts a suffix behind it.
pub(crate) fn set_key(last: &mut Option<Key>, keep: usize, suffix: &[u8])
    requires kept { keep ≤ length (key_of (last_of last.old)) }
    requires short { keep + length suffix.now ≤ longest }
    ensures { last_of last.new ≡ Some (take keep (key_of (last_of last.old)) ++ suffix.now) }
{
    let key = last.get_or_insert_with(Key::new);
    key.truncate(keep);
    key.try_extend_from_slice(suffix).unwrap();
}
