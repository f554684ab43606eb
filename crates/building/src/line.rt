// A line: a key in hexadecimal, a tab, and a value in decimal.
ghost use Rattle.std.specs.Prelude.{◌≡◌, IfOk, vec_items};
ghost use Rattle.std.specs.Char.{is_ascii_hexdigit};
ghost use Rattle.std.specs.List.{list_all};
ghost use Rattle.std.specs.Option.{option_map};
ghost use Rattle.building.specs.Lines.{halves, key_of, value_of, parsed};
ghost use Rattle.building.specs.Parts.{entry_of, parts_of};

use hex::FromHexError;
use std::alloc::{AllocError, Global};

#[derive(PartialEq, Eq, Debug, Drop)]
pub struct Line {
    pub key: Vec<u8>,
    pub value: u64,
}

// What stands before and behind the first such byte, if there is one.
pub(crate) fn split_once(bytes: &[u8], wanted: u8) -> Option<(&[u8], &[u8])>
    ensures { option_map parts_of result ≡ halves wanted bytes.now }
{
    let at = bytes.iter().position(|b| *b == wanted)?;
    Some((&bytes[..at], &bytes[at + 1..]))
}

// Whether all are digits.
fn is_hex(digits: &[u8]) -> bool
    ensures { result ≡ list_all is_ascii_hexdigit digits.now }
{
    digits.iter().all(|digit| digit.is_ascii_hexdigit())
}

fn parse_key(heap: Global, digits: &[u8]) -> Result<Option<Vec<u8>>, AllocError>
    ensures { IfOk result (λ o. option_map vec_items o ≡ key_of digits.now) }
{
    match hex::decode(heap, digits) {
        Ok(key) => Ok(Some(key)),
        Err(fault) => match fault {
            // the memory is taken before a digit is looked at; what is no key wants none
            FromHexError::OutOfMemory if is_hex(digits) => Err(AllocError),
            _ => Ok(None),
        },
    }
}

fn parse_value(digits: &[u8]) -> Option<u64>
    ensures { result ≡ value_of digits.now }
{
    // a value has no sign, and `parse` takes one
    if digits.starts_with(b"+") {
        return None;
    }
    str::from_utf8(digits).ok()?.parse().ok()
}

// The key and the value of a line, or nothing where it has others than these; or want of memory.
pub fn parse_line(heap: Global, line: &[u8]) -> Result<Option<Line>, AllocError>
    ensures { IfOk result (λ o. option_map entry_of o ≡ parsed line.now) }
{
    let Some((key, value)) = split_once(line, b'\t') else {
        return Ok(None);
    };
    let Some(value) = parse_value(value) else {
        return Ok(None);
    };
    let key = parse_key(heap, key)?;
    Ok(key.map(|key| Line { key, value }))
}
