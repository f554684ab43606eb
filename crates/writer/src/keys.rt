// Keys, and what one takes in the delta part.
ghost use Rattle.std.specs.Prelude.{◌≡◌, ◌+◌, ◌-◌, ◌<◌, ◌≤◌, ◌++◌, Some, None, leb as at_most, length, take, if◌then◌else◌, vec_len, vec_capacity};
ghost use Rattle.format.specs.Keys.{longest, shared};
ghost use Rattle.writer.specs.Parts.{behind, entry};

use block::header::{encode_keep_add, header_len};
pub use block::keys::common_prefix_len;
use block::keys::{KEY_MAX_LEN, Key};
use std::marker::Model;

// The bytes of a key, which are at most 512.
#[derive(Drop)]
pub(crate) struct KeyRef<'a> {
    bytes: &'a [u8],
}

impl<'a> Model for KeyRef<'a> {
    ghost use Rattle.std.specs.Prelude.{ℕ, ◌≤◌, List, length};

    ghost Value = { List ℕ };

    ghost view = { λ k. k.bytes.now };

    ghost invariant = { λ k. length k.bytes.now ≤ 512 };
}

impl<'a> KeyRef<'a> {
    // The key, unless it has too many bytes.
    pub(crate) fn new(bytes: &'a [u8]) -> Option<KeyRef<'a>>
        ensures { result ≡ (if at_most (length bytes.now) longest then Some bytes.now else None) }
    {
        if bytes.len() <= KEY_MAX_LEN {
            Some(KeyRef { bytes })
        } else {
            None
        }
    }

    // The key behind another.
    pub(crate) fn behind(&self, prev: &[u8]) -> DeltaKey<'a>
        ensures { result ≡ behind prev.now self.now }
    {
        DeltaKey {
            keep: common_prefix_len(prev, self.bytes),
            bytes: self.bytes,
        }
    }

    // Puts the key in place of another.
    pub(crate) fn copy_to(&self, kept: &mut Key)
        ensures items { kept.new.items ≡ self.now }
        ensures short { length self.now ≤ longest }
    {
        kept.clear();
        kept.try_extend_from_slice(self.bytes).unwrap();
    }
}

impl<'a> From<&'a Key> for KeyRef<'a> {
    ghost from_gives = { λ kept key. key ≡ kept.now.items };

    fn from(kept: &'a Key) -> KeyRef<'a> {
        KeyRef {
            bytes: kept.as_slice(),
        }
    }
}

// A key, and how many bytes it keeps of the key before it.
#[derive(Drop)]
pub(crate) struct DeltaKey<'a> {
    keep: usize,
    bytes: &'a [u8],
}

impl<'a> Model for DeltaKey<'a> {
    ghost use Rattle.std.specs.Prelude.{ℕ, ◌≤◌, length};
    ghost use Rattle.writer.specs.Parts.{Kept};

    ghost Value = { Kept };

    ghost view = { λ k. record { keep = k.keep; key = k.bytes.now } };

    ghost invariant = { λ k. (k.keep ≤ length k.bytes.now) × (length k.bytes.now ≤ 512) };
}

impl DeltaKey<'_> {
    // How many bytes it takes in the delta part.
    #[tactic(auto, using(crate::proofs::KeyParts::entry_length))]
    pub(crate) fn len(&self) -> usize
        ensures value { result ≡ length (entry self.now) }
        ensures within { result ≤ 533 }
    {
        let add = self.bytes.len() - self.keep;
        header_len(self.keep, add) + add
    }

    // Puts it behind a delta part.
    pub(crate) fn push_to(&self, delta: &mut Vec<u8>)
        requires { vec_len delta.old + 533 ≤ vec_capacity delta.old }
        ensures items { delta.new.items ≡ delta.old.items ++ entry self.now }
        ensures low { vec_len delta.old < vec_len delta.new }
        ensures high { vec_len delta.new ≤ vec_len delta.old + 533 }
        ensures capacity { vec_capacity delta.old ≤ vec_capacity delta.new }
    {
        encode_keep_add(delta, self.keep, self.bytes.len() - self.keep).unwrap();
        delta.extend_from_slice(&self.bytes[self.keep..]).unwrap();
    }

    // Puts it in place of a key whose bytes it keeps.
    pub(crate) fn replace(&self, kept: &mut Key)
        requires { take self.now.keep kept.old.items ≡ take self.now.keep self.now.key }
        ensures items { kept.new.items ≡ self.now.key }
        ensures short { length self.now.key ≤ longest }
    {
        kept.truncate(self.keep);
        kept.try_extend_from_slice(&self.bytes[self.keep..])
            .unwrap();
    }
}
