// Rising numbers, coded as a count and the rise of each over the one before.
ghost use Rattle.std.specs.Prelude.{◌≡◌, ℕ, ◌≤◌, length};
ghost use Rattle.format.specs.Buffers.{written};
ghost use Rattle.format.specs.Codecs.{Allowed, step_answer, moved, placed};
ghost use Rattle.format.specs.Faults.{told};
ghost use Rattle.format.specs.Monotonic.{u64_rule, u64_steps};
ghost use Rattle.format.specs.Sums.{end_in, whole as whole_of, counted};
ghost use Rattle.codec.specs.Told.{of_codec};

use crate::fault::CodecFault;
use crate::vint;
use format::{Cursor, Part};

// Moves the cursor past one rise, and answers the number that it comes to; nothing where none is left.
pub(crate) fn rise(cursor: &mut Cursor, part: Part<'_>) -> Result<Option<u64>, CodecFault>
    ensures answer { told of_codec result ≡ step_answer part.entry.place (u64_steps cursor.old part.entry.bytes.now) }
    ensures after { cursor.new ≡ moved cursor.old (u64_steps cursor.old part.entry.bytes.now) }
{
    if cursor.left == 0 {
        return Ok(None);
    }
    let (n, by) = vint::deserialize_read(part.rest(cursor.next))?;
    let Some(sum) = cursor.last.checked_add(by) else {
        return Err(CodecFault::Sum { place: part.place });
    };
    cursor.next += n;
    cursor.last = sum;
    cursor.left -= 1;
    Ok(Some(sum))
}

// Where the numbers that a cursor stands before end.
fn end_of(start: Cursor, part: Part<'_>) -> Result<usize, CodecFault>
    ensures { told of_codec result ≡ placed part.entry.place (end_in start.left start part.entry.bytes.now) }
{
    let mut cursor = start;
    while let Some(_) = rise(&mut cursor, part)? {}
    Ok(cursor.next)
}

// A cursor whose numbers are all there, and where they end.
pub(crate) fn whole(cursor: Cursor, part: Part<'_>) -> Result<(Cursor, usize), CodecFault>
    ensures { told of_codec result ≡ placed part.entry.place (whole_of cursor part.entry.bytes.now) }
{
    let end = end_of(cursor, part)?;
    Ok((cursor, end))
}

// Writes the count of some numbers and their rises at the front of a buffer, and answers how many bytes they are.
pub(crate) fn put_counted(vals: &[u64], output: &mut [u8]) -> usize
    requires rising { Allowed u64_rule vals.now }
    requires fits { length (counted vals.now) ≤ length output.old }
    ensures value { result ≡ length (counted vals.now) }
    ensures after { output.new ≡ written output.old 0 (counted vals.now) }
{
    // `as` cuts nothing off: a length is no wider than a u64
    let mut at = vint::put(vals.len() as u64, output, 0);
    let mut last = 0;
    // `at` counts nothing: each number ends where the next begins
    for v in vals {
        at = vint::put(v - last, output, at);
        last = *v;
    }
    at
}
