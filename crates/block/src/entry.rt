// An entry of a block.
ghost use Rattle.codec.specs.Meanings.{meaning};
ghost use Rattle.std.specs.Prelude.{◌≡◌, ℕ, ◌+◌, ◌<◌, ◌≤◌, ◌++◌, length, take, IfOk, OnOk};
ghost use Rattle.format.specs.Keys.{longest, follows};
ghost use Rattle.format.specs.Reading.{suffix_at, key_of};
ghost use Rattle.block.specs.Entries.{told_suffix, suffixed, accepts, key_after, entry_of, entry_in, IsAtEntry};
ghost use Rattle.block.specs.Told.{of_block};
ghost use Rattle.format.specs.Faults.{told};

use crate::fault::BlockFault;
use crate::found::{Delta, Suffix};
use crate::header::read_keep_add;
use crate::keys::{KEY_MAX_LEN, is_below};
use crate::position::{Position, set_key};
use codec::value::Codec;

impl Position {
    // The suffix at the next header.
    fn read_suffix<'a>(&self, area: &'a [u8]) -> Result<Suffix<'a>, BlockFault>
        requires { self.now.finish ≤ length area.now }
        ensures answer { told_suffix result ≡ suffix_at area.now self.now.next self.now.finish }
        ensures within { IfOk result (λ s. (self.now.next < s.place)
            × (s.place + length s.bytes.now ≤ self.now.finish)) }
    {
        let mut offset = self.next;
        let (keep, add) = read_keep_add(&area[..self.finish], &mut offset)?;
        if add > self.finish - offset {
            return Err(BlockFault::Suffix { place: self.next });
        }
        Ok(Suffix {
            keep,
            place: offset,
            bytes: &area[offset..offset + add],
        })
    }

    // Whether the key with this suffix may follow the key before.
    fn follows_last(&self, suffix: Suffix<'_>) -> bool
        requires { suffix.keep ≤ length (key_of self.now.last) }
        ensures { result ≡ follows self.now.last
            (take suffix.entry.keep (key_of self.now.last) ++ suffix.entry.bytes.now) }
    {
        self.key()
            .is_none_or(|key| is_below(&key[suffix.keep..], suffix.bytes))
    }

    // Whether a suffix, which may keep so many bytes of the key before, makes a key that may follow.
    fn check_key(&self, keep_max: usize, suffix: Suffix<'_>) -> Result<(), BlockFault>
        requires { keep_max ≤ length (key_of self.now.last) }
        ensures answer { told of_block result ≡ accepts (key_after keep_max self.now (suffixed suffix.entry)) }
        ensures kept { OnOk result (suffix.entry.keep ≤ keep_max) }
        ensures short { OnOk result (suffix.entry.keep + length suffix.entry.bytes.now ≤ longest) }
    {
        if suffix.keep > keep_max || !self.follows_last(suffix) {
            return Err(BlockFault::Order { place: self.next });
        }
        if suffix.bytes.len() > KEY_MAX_LEN - suffix.keep {
            return Err(BlockFault::Length { place: self.next });
        }
        Ok(())
    }

    // Reads the entry at the next header, which may keep so many bytes of the key before.
    pub(crate) fn read_entry<'a, C: Codec>(
        &mut self,
        area: &'a [u8],
        keep_max: usize,
    ) -> Result<Delta<'a, C::Value>, BlockFault>
        requires { IsAtEntry area.now self.old keep_max }
        ensures { entry_of result self.new ≡ entry_in (meaning C.Codec) area.now self.old keep_max }
    {
        let suffix = self.read_suffix(area)?;
        self.check_key(keep_max, suffix)?;
        let content = self.block().content(area);
        let Some(value) = C::next_value(&mut self.cursor, content)? else {
            return Err(BlockFault::NoValue { place: self.next });
        };
        let Suffix { keep, place, bytes } = suffix;
        let ordinal = self.ordinal;
        set_key(&mut self.last, keep, bytes);
        self.next = place + bytes.len();
        self.ordinal += 1;
        Ok(Delta {
            keep,
            suffix: bytes,
            place,
            ordinal,
            value,
        })
    }
}
