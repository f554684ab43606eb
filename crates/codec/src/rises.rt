// Numbers that never fall, coded by the rise of each over the one before, with their size.
ghost use Rattle.std.specs.Prelude.{◌≡◌, ℕ, ◌+◌, ◌<◌, ◌≤◌, [], ◌∷◌, ◌++◌, ◌↔◌, length, IsTrue, IfOk};
ghost use Rattle.format.specs.Buffers.{put_end, put};
ghost use Rattle.format.specs.Codecs.{most};
ghost use Rattle.format.specs.Monotonic.{last_of, last_or};
ghost use Rattle.format.specs.Sums.{counted};

use crate::value::MOST_VALUES;
use crate::{sums, vint};
use std::alloc::{AllocError, Global};
use std::marker::Model;

// As many as the edges of the most ranges that a codec holds.
pub(crate) const MOST_NUMBERS: usize = MOST_VALUES + 1;

#[derive(Drop)]
pub(crate) struct Rises {
    // a Vec with all its room, taken at opening: no later call takes memory
    vals: Vec<u64>,
    // how many bytes the rises take, kept since it is asked for at each value
    rises_len: usize,
}

impl Model for Rises {
    ghost use Rattle.std.specs.Prelude.{ℕ, List};

    ghost Value = { List ℕ };

    ghost use Rattle.codec.specs.Rises.{IsRises};

    ghost view = { λ r. r.vals.items };

    ghost invariant = { IsRises };
}

impl Rises {
    pub(crate) fn new(heap: Global) -> Result<Rises, AllocError>
        ensures { IfOk result (λ r. r ≡ []) }
    {
        let vals = Vec::with_capacity(heap, MOST_NUMBERS)?;
        Ok(Rises { vals, rises_len: 0 })
    }

    pub(crate) fn len(&self) -> usize
        ensures { result ≡ length self.now }
    {
        self.vals.len()
    }

    pub(crate) fn is_empty(&self) -> bool
        ensures { IsTrue result ↔ (length self.now ≡ 0) }
    {
        self.vals.is_empty()
    }

    pub(crate) fn last(&self) -> Option<u64>
        ensures { result ≡ last_of self.now }
    {
        self.vals.last().copied()
    }

    // The number over which the next one rises.
    fn base(&self) -> u64
        ensures { result ≡ last_or 0 self.now }
    {
        self.last().unwrap_or(0)
    }

    // How many bytes the count and the rises take. A length becomes a number by `as`: the library has no `From` for that.
    pub(crate) fn size(&self) -> usize
        ensures { result ≡ length (counted self.now) }
    {
        vint::serialized_len(self.vals.len() as u64) + self.rises_len
    }

    // How many they take with one number more. It need not follow them: below the last its rise is 0, so this subtraction
    // saturates.
    pub(crate) fn size_with(&self, v: u64) -> usize
        ensures { result ≡ length (counted (self.now ++ v ∷ [])) }
    {
        let rise = v.saturating_sub(self.base());
        vint::serialized_len(self.vals.len() as u64 + 1)
            + self.rises_len
            + vint::serialized_len(rise)
    }

    pub(crate) fn push(&mut self, v: u64)
        requires few { length self.old ≤ most }
        requires rising { last_or 0 self.old ≤ v }
        ensures { self.new ≡ self.old ++ v ∷ [] }
    {
        self.rises_len += vint::serialized_len(v - self.base());
        self.vals.push_reserved(v);
    }

    pub(crate) fn clear(&mut self)
        ensures { self.new ≡ [] }
    {
        self.vals.clear();
        self.rises_len = 0;
    }

    // Puts the count and the rises at the front of a buffer, and answers how many bytes they are. Where they do not fit, it
    // answers nothing and leaves the buffer as it was.
    pub(crate) fn serialize(&self, output: &mut [u8]) -> Option<usize>
        ensures answer { result ≡ put_end output.old 0 (counted self.now) }
        ensures after { output.new ≡ put output.old 0 (counted self.now) }
    {
        if self.size() > output.len() {
            return None;
        }
        Some(sums::put_counted(self.vals.as_slice(), output))
    }
}
