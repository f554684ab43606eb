// An sstable that is being written.
ghost use Rattle.std.specs.Prelude.{◌≡◌, ◌+◌, ◌≤◌, length, take, Some, IfOk, OnOk};
ghost use Rattle.block.specs.Positions.{last_of};
ghost use Rattle.codec.specs.Meanings.{meaning};
ghost use Rattle.format.specs.Buffers.{written};
ghost use Rattle.format.specs.Faults.{told};
ghost use Rattle.format.specs.Keys.{longest, follows};
ghost use Rattle.format.specs.Reading.{key_of};
ghost use Rattle.writer.specs.States.{nothing_written, last_key, key_test, room_test, entry_test, finish_test, kept_of, flushed_by, took_entry, ending, ended, HasRoom, Fits, Inserts};
ghost use Rattle.writer.specs.Told.{of_writer};

use crate::fault::WriterFault;
use crate::keys::{DeltaKey, KeyRef};
use crate::limits::WORD_LEN;
use crate::open_block::{OpenBlock, put_word};
use block::frame::HEAD_LEN;
use block::keys::{Key, is_below};
use codec::value::Codec;
use std::alloc::{AllocError, Global};
use std::marker::Model;

#[derive(Drop)]
pub(crate) struct OpenTable<C: Codec> {
    // the last taken key, if one was taken
    pub(crate) last: Option<Key>,
    pub(crate) block: OpenBlock<C>,
    // how many bytes are written
    pub(crate) end: usize,
    // how many entries were taken
    pub(crate) ordinal: u64,
}

impl<C: Codec> Model for OpenTable<C> {
    ghost use Rattle.writer.specs.States.{OpenTable as Written};

    ghost Value = { Written C.Value };

    ghost use Rattle.writer.specs.OpenTableFields.{table_view, IsOpenTable};

    ghost view = { table_view };

    ghost invariant = { IsOpenTable };
}

// The bytes of a key that may be missing.
fn bytes_of(last: &Option<Key>) -> &[u8]
    ensures { result.now ≡ key_of (last_of last.now) }
{
    last.as_ref().map_or(&[], |key| key.as_slice())
}

// Makes a key behind the last one the last. The reader of blocks does so too, by a function of its own: each asks something
// of its callers, which no public function may.
fn set_last(last: &mut Option<Key>, key: &DeltaKey<'_>)
    requires { take key.now.keep (key_of (last_of last.old)) ≡ take key.now.keep key.now.key }
    ensures key { last_of last.new ≡ Some key.now.key }
    ensures short { length key.now.key ≤ longest }
{
    key.replace(last.get_or_insert_with(Key::new));
}

impl<C: Codec> OpenTable<C> {
    // A table without entries. All memory is taken here.
    pub(crate) fn new(heap: Global) -> Result<OpenTable<C>, AllocError>
    where
        C: Drop,
        ensures { IfOk result (λ t. t ≡ nothing_written) }
    {
        Ok(OpenTable {
            last: None,
            block: OpenBlock::new(heap)?,
            end: 0,
            ordinal: 0,
        })
    }

    // Whether a key is above the last taken one; any key may come first.
    fn follows_last(&self, key: &[u8]) -> bool
        ensures { result ≡ follows (last_key self.now) key.now }
    {
        self.last
            .as_ref()
            .is_none_or(|last| is_below(last.as_slice(), key))
    }

    // A key that may come next.
    pub(crate) fn check_key<'a>(&self, key: &'a [u8]) -> Result<KeyRef<'a>, WriterFault>
        ensures answer { told of_writer result ≡ key_test self.now key.now }
        ensures same { IfOk result (λ k. k ≡ key.now) }
    {
        let ordinal = self.ordinal;
        let short = KeyRef::new(key).ok_or(WriterFault::KeyLength { ordinal })?;
        if !self.follows_last(key) {
            return Err(WriterFault::KeyOrder { ordinal });
        }
        Ok(short)
    }

    // Whether so many bytes fit the output behind those written.
    fn check_room(&self, due: usize, output_len: usize) -> Result<(), WriterFault>
        ensures answer { told of_writer result ≡ room_test self.now due output_len }
        ensures fits { OnOk result (HasRoom self.now due output_len) }
    {
        if due > output_len.saturating_sub(self.end) {
            return Err(WriterFault::OutputShort {
                ordinal: self.ordinal,
            });
        }
        Ok(())
    }

    // A key behind the last one.
    fn behind_last<'a>(&self, key: &KeyRef<'a>) -> DeltaKey<'a>
        ensures { result ≡ kept_of self.now key.now }
    {
        self.block.behind_last(bytes_of(&self.last), key)
    }

    // Whether a value may be taken with its key, and what that flushes fits the output.
    fn check_entry(
        &self,
        key: &DeltaKey<'_>,
        value: C::Value,
        output_len: usize,
    ) -> Result<(), WriterFault>
        ensures answer { told of_writer result ≡ entry_test (meaning C.Codec) self.now key.now value output_len }
        ensures fits { OnOk result (Fits (meaning C.Codec) self.now key.now value output_len) }
    {
        self.block.check(value, self.ordinal)?;
        self.check_room(self.block.flush_len(key, value), output_len)
    }

    // Takes an entry, and flushes a block whose delta part has become long.
    fn take(&mut self, key: &DeltaKey<'_>, value: C::Value, output: &mut [u8])
        requires kept { key.now ≡ kept_of self.old key.now.key }
        requires fits { Fits (meaning C.Codec) self.old key.now value (length output.old) }
        ensures after { self.new ≡ took_entry C.Codec.bytes self.old key.now.key value }
        ensures writes { output.new ≡ written output.old self.old.end
            (flushed_by C.Codec.bytes self.old key.now.key value) }
    {
        self.block.push(key, value, self.ordinal);
        set_last(&mut self.last, key);
        self.ordinal += 1;
        if self.block.is_long() {
            self.end += self.block.write(&mut output[self.end..]);
            self.block.clear();
        }
    }

    // Takes a key that may come next and its value, or refuses them.
    pub(crate) fn insert(
        &mut self,
        key: &KeyRef<'_>,
        value: C::Value,
        output: &mut [u8],
    ) -> Result<(), WriterFault>
        ensures { Inserts (meaning C.Codec) key.now value
            self.old output.old result self.new output.new }
    {
        let key = self.behind_last(key);
        self.check_entry(&key, value, output.len())?;
        self.take(&key, value, output);
        Ok(())
    }

    // How many bytes a finish would write, or a few more.
    pub(crate) fn room(&self) -> usize
        ensures low { length (ending C.Codec.bytes self.now) ≤ result }
        ensures high { result ≤ length (ending C.Codec.bytes self.now) + 16 }
        ensures within { result ≤ 24039 }
    {
        HEAD_LEN + WORD_LEN + self.block.len()
    }

    // Whether what a finish writes fits the output.
    pub(crate) fn check_finish(&self, output_len: usize) -> Result<(), WriterFault>
        ensures answer { told of_writer result ≡ finish_test (meaning C.Codec) self.now output_len }
        ensures fits { OnOk result (HasRoom self.now (length (ending C.Codec.bytes self.now)) output_len) }
    {
        self.check_room(self.block.rest_len() + WORD_LEN, output_len)
    }

    // Flushes the open block, if it has entries, and writes the end marker.
    pub(crate) fn close(&mut self, output: &mut [u8])
        requires { HasRoom self.old (length (ending C.Codec.bytes self.old)) (length output.old) }
        ensures after { self.new ≡ ended C.Codec.bytes self.old }
        ensures writes { output.new ≡ written output.old self.old.end (ending C.Codec.bytes self.old) }
    {
        self.end += self.block.write_rest(&mut output[self.end..]);
        put_word(&mut output[self.end..], 0);
        self.end += WORD_LEN;
        self.block.clear();
    }
}
