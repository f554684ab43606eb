// Headers: how many bytes a key keeps of the key before it, and how many it adds.
ghost use Rattle.std.specs.Prelude.{◌≡◌, ◌+◌, ◌<◌, ◌≤◌, ◌&&◌, ◌++◌, length, nat_lt, vec_len, vec_capacity, OnErr, OnOk};
ghost use Rattle.format.specs.Buffers.{written};
ghost use Rattle.format.specs.Faults.{told};
ghost use Rattle.format.specs.Headers.{header};
ghost use Rattle.format.specs.Numbers.{leb};
ghost use Rattle.codec.specs.Told.{of_number};
ghost use Rattle.block.specs.HeaderBack.{HeaderBack};
ghost use Rattle.block.specs.Headers.{keep_add_at, behind_header, appended};

use codec::fault::NumberFault;
use codec::vint;
use format::Part;
use std::alloc::AllocError;

// A byte that says that keep and add follow as numbers.
const VINT_MODE: u8 = 1;
// Both below this fit one byte.
const FOUR_BIT_LIMIT: usize = 16;
// 01 and two numbers of ten bytes.
pub const HEADER_MAX_LEN: usize = 21;

// Keep and add of the header at `offset`, which moves behind it; it stays where there is none. They go in and out as two
// numbers, as the format has them, and not as a struct.
pub fn read_keep_add(block: &[u8], offset: &mut usize) -> Result<(usize, usize), NumberFault>
    ensures answer { told of_number result ≡ keep_add_at block.now offset.old }
    ensures after { offset.new ≡ behind_header block.now offset.old }
    ensures back { HeaderBack block.now offset.old result offset.new }
    ensures within { OnOk result ((offset.old < offset.new) × (offset.new ≤ length block.now)) }
{
    let place = *offset;
    let Some(&b) = block.get(place) else {
        return Err(NumberFault::Bad { place });
    };
    if b != VINT_MODE {
        *offset = place + 1;
        return Ok((usize::from(b % 16), usize::from(b / 16)));
    }
    let part = Part {
        bytes: block,
        place,
    };
    let numbers = part.rest(place + 1);
    let (n, keep) = vint::deserialize_read(numbers)?;
    let (m, add) = vint::deserialize_read(numbers.rest(n))?;
    *offset = place + 1 + n + m;
    // by `as`, as below: std has no `From` between u64 and usize
    Ok((keep as usize, add as usize))
}

// Writes two numbers from the second byte on, and answers where they end.
#[tactic(auto, using(format::proofs::NumberLaws::leb_ten))]
fn put_numbers(buf: &mut [u8; HEADER_MAX_LEN], keep: u64, add: u64) -> usize
    ensures value { result ≡ 1 + length (leb keep ++ leb add) }
    ensures after { buf.new ≡ written buf.old 1 (leb keep ++ leb add) }
    ensures within { result ≤ 21 }
{
    let n = vint::serialize(keep, buf, 1).unwrap();
    vint::serialize(add, buf, n).unwrap()
}

// Whether both fit one byte.
fn is_short(keep_len: usize, add_len: usize) -> bool
    ensures { result ≡ (nat_lt keep_len 16 && nat_lt add_len 16) }
{
    keep_len < FOUR_BIT_LIMIT && add_len < FOUR_BIT_LIMIT
}

// How many bytes the header of a key takes.
pub fn header_len(keep_len: usize, add_len: usize) -> usize
    ensures value { result ≡ length (header keep_len add_len) }
    ensures some { 0 < result }
    ensures within { result ≤ 21 }
{
    if is_short(keep_len, add_len) {
        return 1;
    }
    1 + vint::serialized_len(keep_len as u64) + vint::serialized_len(add_len as u64)
}

// Puts a header behind what `block` holds, or leaves it as it was where there is no memory.
pub fn encode_keep_add(
    block: &mut Vec<u8>,
    keep_len: usize,
    add_len: usize,
) -> Result<(), AllocError>
    ensures after { block.new.items ≡ appended result block.old.items (header keep_len add_len) }
    ensures succeeds { OnErr result (vec_capacity block.old < vec_len block.old + 21) }
    ensures capacity { vec_capacity block.old ≤ vec_capacity block.new }
{
    if is_short(keep_len, add_len) {
        // both are below 16, so it fits
        block.push((keep_len + 16 * add_len) as u8)?;
        return Ok(());
    }
    // A buffer with its length beside it, so that one append puts all of the header or nothing.
    let mut buf = [VINT_MODE; HEADER_MAX_LEN];
    let len = put_numbers(&mut buf, keep_len as u64, add_len as u64);
    block.extend_from_slice(&buf[..len])
}
