// What a value codec means: the list of values that it holds, which value may follow a list in one block, the bytes of each
// allowed list, and the reading of any bytes.
ghost use Rattle.std.specs.Prelude.{◌≡◌, ℕ, ◌≤◌, Bool, true, List, [], ◌∷◌, ◌++◌, length, IfOk, OnOk};
ghost use Rattle.format.specs.declared.Cursor.{Cursor};
ghost use Rattle.format.specs.Buffers.{put_end, put};
ghost use Rattle.format.specs.Codecs.{Opened, Stepped, Allowed, takes, write_answer, with_value, step_answer, moved, placed, most, meant, ReadsBack, Short, Within};
ghost use Rattle.format.specs.Faults.{told};
ghost use Rattle.codec.specs.Told.{of_codec};

use crate::fault::CodecFault;
use format::{Cursor, Part};
use std::alloc::{AllocError, Global};

// The most values that a codec holds: as many as a written block can have.
pub const MOST_VALUES: usize = 2001;

pub trait Codec: Sized {
    type Value: Copy;

    // the values taken since the block began
    ghost list: { Self → List Self.Value };

    ghost rule: { List Self.Value → Self.Value → Bool };

    ghost bytes: { List Self.Value → List ℕ };

    ghost opens: { List ℕ → Opened };

    ghost steps: { Cursor → List ℕ → Stepped Self.Value };

    // All memory is taken here.
    fn new(heap: Global) -> Result<Self, AllocError>
        ensures { IfOk result (λ c. list c ≡ []) };

    // Whether `write` would take the value.
    fn allows(&self, v: Self::Value) -> bool
        ensures { result ≡ takes rule (list self.now) v };

    // Whether a value may be taken, or fault 3 at the ordinal of its entry.
    fn check(&self, v: Self::Value, ordinal: u64) -> Result<(), CodecFault>
        ensures answer { told of_codec result ≡ write_answer rule (list self.now) v ordinal }
        ensures allowed { OnOk result (takes rule (list self.now) v ≡ true) }
    {
        if self.allows(v) {
            Ok(())
        } else {
            Err(CodecFault::Rule { ordinal })
        }
    }

    // How many bytes the list takes.
    fn size(&self) -> usize
        ensures { result ≡ length (bytes (list self.now)) };

    // How many it takes with one value more.
    fn size_with(&self, v: Self::Value) -> usize
        ensures { result ≡ length (bytes (list self.now ++ v ∷ [])) };

    // Takes a value, or answers fault 3 at the ordinal of its entry.
    fn write(&mut self, v: Self::Value, ordinal: u64) -> Result<(), CodecFault>
        ensures answer { told of_codec result ≡ write_answer rule (list self.old) v ordinal }
        ensures after { list self.new ≡ with_value rule (list self.old) v };

    // Puts the bytes of the list at the front of `output`, and answers how many they are. Where they do not fit, it answers
    // nothing and leaves `output` as it was.
    fn serialize_block(&self, output: &mut [u8]) -> Option<usize>
        ensures answer { result ≡ put_end output.old 0 (bytes (list self.now)) }
        ensures after { output.new ≡ put output.old 0 (bytes (list self.now)) };

    // Begins a new block.
    fn clear(&mut self)
        ensures { list self.new ≡ [] };

    // Walks through the values at the front of a part once: a cursor that stands before the first, and how many bytes they
    // take.
    fn load(part: Part<'_>) -> Result<(Cursor, usize), CodecFault>
        ensures { told of_codec result ≡ placed part.entry.place (opens part.entry.bytes.now) };

    // The next value of the part that the cursor was made for, or nothing where there are no more.
    fn next_value(cursor: &mut Cursor, part: Part<'_>) -> Result<Option<Self::Value>, CodecFault>
        ensures answer { told of_codec result ≡ step_answer part.entry.place (steps cursor.old part.entry.bytes.now) }
        ensures after { cursor.new ≡ moved cursor.old (steps cursor.old part.entry.bytes.now) };

    ghost back: { ReadsBack (meant rule bytes opens steps) };

    ghost short: { Short (meant rule bytes opens steps) };

    ghost within: { Within opens };

    ghost held: { (c : Self) → Allowed rule (list c) × (length (list c) ≤ most) };
}
