// Unsigned LEB128 numbers of 64 bits.
ghost use Rattle.std.specs.Prelude.{◌≡◌, ℕ, ◌+◌, ◌^◌, ◌<◌, ◌≤◌, length, IfOk};
ghost use Rattle.format.specs.Buffers.{written, put_end, put as put_bytes};
ghost use Rattle.format.specs.Faults.{told, or_fault, bad_number};
ghost use Rattle.format.specs.Numbers.{leb, read_leb};
ghost use Rattle.codec.specs.NumberBack.{NumberBack};
ghost use Rattle.codec.specs.Told.{of_number};

use crate::fault::NumberFault;
use format::Part;

// A byte of 128 and more says that another follows.
const CONTINUE_BIT: u8 = 128;
// A number has at most ten bytes, and the tenth holds the 64th bit.
const LAST_INDEX: usize = 9;

const LAST_LIMIT: u8 = 1;

// How many bytes the number at the front of a part takes, and its value. Longer forms than the shortest are taken too, up to
// ten bytes.
pub fn deserialize_read(part: Part<'_>) -> Result<(usize, u64), NumberFault>
    ensures value { told of_number result ≡ or_fault (read_leb part.entry.bytes.now) (bad_number part.entry.place) }
    ensures some { IfOk result (λ p. 0 < p.0) }
    ensures ten { IfOk result (λ p. p.0 ≤ 10) }
    ensures within { IfOk result (λ p. p.0 ≤ length part.entry.bytes.now) }
    ensures back { NumberBack part.entry.bytes.now result }
{
    let mut value = 0;
    for (i, b) in part.bytes.iter().enumerate() {
        if i == LAST_INDEX && *b > LAST_LIMIT {
            break;
        }
        value |= u64::from(*b & 127) << (7 * i);
        if *b < CONTINUE_BIT {
            return Ok((i + 1, value));
        }
    }
    Err(NumberFault::Bad { place: part.place })
}

// How many bytes the shortest form of `val` takes.
pub fn serialized_len(val: u64) -> usize
    ensures value { result ≡ length (leb val) }
    ensures some { 0 < result }
    ensures ten { result ≤ 10 }
{
    // seven bits a byte; 0 has one too. `as` cuts nothing off: a logarithm is below 64
    val.max(1).ilog2() as usize / 7 + 1
}

// Writes the shortest form of `val` from a place on, and answers the place behind it.
pub(crate) fn put(val: u64, buffer: &mut [u8], start: usize) -> usize
    requires { start + length (leb val) ≤ length buffer.old }
    ensures value { result ≡ start + length (leb val) }
    ensures after { buffer.new ≡ written buffer.old start (leb val) }
{
    // by hand: the library says nothing of a buffer after an adapter of its `iter_mut`, so the bytes are put by their places
    let mut at = start;
    let mut rest = val;
    while rest >= u64::from(CONTINUE_BIT) {
        // `as` cuts nothing off, here and below: the numbers are below 128
        buffer[at] = (rest % 128) as u8 + CONTINUE_BIT;
        rest /= 128;
        at += 1;
    }
    buffer[at] = rest as u8;
    at + 1
}

// Writes the shortest form of `val` into `buffer` from `start` on, and answers the place behind it; nothing, with the buffer as
// it was, where it does not fit.
pub fn serialize(val: u64, buffer: &mut [u8], start: usize) -> Option<usize>
    ensures value { result ≡ put_end buffer.old start (leb val) }
    ensures after { buffer.new ≡ put_bytes buffer.old start (leb val) }
{
    let end = start.checked_add(serialized_len(val))?;
    if end > buffer.len() {
        return None;
    }
    Some(put(val, buffer, start))
}
