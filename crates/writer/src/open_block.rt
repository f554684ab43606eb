// The open block of an sstable.
ghost use Rattle.std.specs.Prelude.{◌≡◌, ◌+◌, ◌-◌, ◌*◌, ◌≤◌, ◌<◌, length, IfOk, OnOk};
ghost use Rattle.codec.specs.Told.{of_codec};
ghost use Rattle.format.specs.Codecs.{write_answer};
ghost use Rattle.format.specs.Faults.{told};
ghost use Rattle.format.specs.Tables.{word as four_bytes};
ghost use Rattle.format.specs.Writing.{overwritten};
ghost use Rattle.writer.specs.States.{no_entries, behind_last, pushed, is_long as is_long_block, block_of, flushed, rest as rest_of, Allows};

use crate::keys::{DeltaKey, KeyRef};
use crate::limits::{BLOCK_LEN, DELTA_CAPACITY, PLAIN, WORD_LEN};
use block::frame::HEAD_LEN;
use codec::fault::CodecFault;
use codec::value::Codec;
use std::alloc::{AllocError, Global};
use std::marker::Model;

#[derive(Drop)]
pub(crate) struct OpenBlock<C: Codec> {
    // the values
    codec: C,
    // the delta part, a Vec since `encode_keep_add` puts headers into one; with all its room, taken at opening
    delta: Vec<u8>,
}

impl<C: Codec> Model for OpenBlock<C> {
    ghost use Rattle.writer.specs.States.{Block};

    ghost Value = { Block C.Value };

    ghost use Rattle.writer.specs.BlockFields.{block_view, IsBlock};

    ghost view = { λ b. block_view C.list b };

    ghost invariant = { IsBlock };
}

// Puts a word at the front of an output.
pub(crate) fn put_word(output: &mut [u8], word: u32)
    requires { 4 ≤ length output.old }
    ensures { output.new ≡ overwritten output.old (four_bytes word) }
{
    output[..WORD_LEN].copy_from_slice(&word.to_le_bytes());
}

impl<C: Codec> OpenBlock<C> {
    // A block without entries. All memory is taken here.
    pub(crate) fn new(heap: Global) -> Result<OpenBlock<C>, AllocError>
    where
        C: Drop,
        ensures { IfOk result (λ b. b ≡ no_entries) }
    {
        let codec = C::new(heap)?;
        let delta = Vec::with_capacity(heap, DELTA_CAPACITY)?;
        Ok(OpenBlock { codec, delta })
    }

    // Whether its delta part has become long.
    pub(crate) fn is_long(&self) -> bool
        ensures { result ≡ is_long_block self.now }
    {
        self.delta.len() > BLOCK_LEN
    }

    // Whether the codec would take the value, or fault 3 at the ordinal of its entry.
    pub(crate) fn check(&self, value: C::Value, ordinal: u64) -> Result<(), CodecFault>
        ensures answer { told of_codec result ≡ write_answer C.Codec.rule self.now.vals value ordinal }
        ensures allowed { OnOk result (Allows C.Codec.rule self.now value) }
    {
        self.codec.check(value, ordinal)
    }

    // A key behind the last one: it keeps nothing at the block's first entry.
    pub(crate) fn behind_last<'a>(&self, last: &[u8], key: &KeyRef<'a>) -> DeltaKey<'a>
        ensures { result ≡ behind_last self.now last.now key.now }
    {
        key.behind(if self.delta.is_empty() { &[] } else { last })
    }

    // How many bytes an entry flushes.
    pub(crate) fn flush_len(&self, key: &DeltaKey<'_>, value: C::Value) -> usize
        requires { Allows C.Codec.rule self.now value }
        ensures { result ≡ length (flushed C.Codec.bytes (pushed self.now key.now value)) }
    {
        let delta_len = self.delta.len() + key.len();
        if delta_len > BLOCK_LEN {
            HEAD_LEN + self.codec.size_with(value) + delta_len
        } else {
            0
        }
    }

    // Takes an entry. The codec would tell the ordinal if it refused the value.
    pub(crate) fn push(&mut self, key: &DeltaKey<'_>, value: C::Value, ordinal: u64)
        requires short { length self.old.delta ≤ 4000 }
        requires allowed { Allows C.Codec.rule self.old value }
        ensures after { self.new ≡ pushed self.old key.now value }
        ensures grows { length self.old.delta < length self.new.delta }
    {
        key.push_to(&mut self.delta);
        self.codec.write(value, ordinal).unwrap();
    }

    // How many bytes the values and the delta part take; none where there are no entries. Values take at most 20,030 bytes, and
    // a delta part at most 4,533: 30,000 is a round number above what both take.
    pub(crate) fn len(&self) -> usize
        ensures value { result ≡ length (rest_of C.Codec.bytes self.now) - 5 }
        ensures within { result ≤ 30000 }
        ensures values { result ≤ 20030 + length self.now.delta }
    {
        if self.delta.is_empty() {
            0
        } else {
            self.codec.size() + self.delta.len()
        }
    }

    // How many bytes `write_rest` writes: a length word and a flag more, where there are entries.
    pub(crate) fn rest_len(&self) -> usize
        ensures value { result ≡ length (rest_of C.Codec.bytes self.now) }
        ensures within { result ≤ 30005 }
    {
        if self.delta.is_empty() {
            0
        } else {
            HEAD_LEN + self.len()
        }
    }

    // Writes the block at the front of an output, and answers how many bytes it has.
    #[tactic(auto, using(crate::proofs::BlockParts::block_length))]
    pub(crate) fn write(&self, output: &mut [u8]) -> usize
        requires { length (block_of C.Codec.bytes self.now) ≤ length output.old }
        ensures value { result ≡ length (block_of C.Codec.bytes self.now) }
        ensures grows { length self.now.delta + 5 ≤ result }
        ensures after { output.new ≡ overwritten output.old (block_of C.Codec.bytes self.now) }
    {
        let values = &mut output[HEAD_LEN..];
        let values_end = HEAD_LEN + self.codec.serialize_block(values).unwrap();
        let end = values_end + self.delta.len();
        output[values_end..end].copy_from_slice(self.delta.as_slice());
        // `as` cuts nothing off: a block has fewer than 2^32 bytes
        put_word(output, (end - WORD_LEN) as u32);
        output[WORD_LEN] = PLAIN;
        end
    }

    // Writes the block, if it has entries, at the front of an output, and answers how many bytes that are. A delta part has at
    // most 4,533 bytes, and its block at least five more.
    pub(crate) fn write_rest(&self, output: &mut [u8]) -> usize
        requires { length (rest_of C.Codec.bytes self.now) ≤ length output.old }
        ensures value { result ≡ length (rest_of C.Codec.bytes self.now) }
        ensures grows { 4538 * length self.now.delta ≤ 4533 * result }
        ensures after { output.new ≡ overwritten output.old (rest_of C.Codec.bytes self.now) }
    {
        if self.delta.is_empty() {
            0
        } else {
            self.write(output)
        }
    }

    // Begins a new block.
    pub(crate) fn clear(&mut self)
        ensures { self.new ≡ no_entries }
    {
        self.delta.clear();
        self.codec.clear();
    }
}
