// Keys and values from text.
ghost use Rattle.std.specs.Prelude.{◌≤◌};

use format::Range;
use std::alloc::{AllocError, Global};

// A value of a codec. Not `FromStr`, which may refuse: here any text has a value, and what is no number is 0.
pub(crate) trait Parse: Sized {
    fn parse(text: &str) -> Self;
}

impl Parse for u64 {
    fn parse(text: &str) -> u64 {
        text.parse::<u64>().unwrap_or(0)
    }
}

// The start and the end of a range are parted by -.
impl Parse for Range {
    fn parse(text: &str) -> Range {
        let (start, end) = first_two(text, '-');
        Range {
            start: u64::parse(start),
            end: u64::parse(end),
        }
    }
}

impl Parse for () {
    fn parse(_: &str) -> () {}
}

// The first two parts of a text, of which the second may be missing and is then empty.
pub(crate) fn first_two(text: &str, mark: char) -> (&str, &str) {
    let mut parts = text.split(mark);
    (parts.next().unwrap_or(""), parts.next().unwrap_or(""))
}

// The value of a digit, or 0 for what is none. By hand, as in `lister_cases`: `hex` refuses what is no digit, and takes capital ones.
fn nibble(digit: u8) -> u8
    ensures { result ≤ 15 }
{
    match digit {
        b'0'..=b'9' => digit - b'0',
        b'a'..=b'f' => digit - b'a' + 10,
        _ => 0,
    }
}

// The bytes of a key. A digit without a second one is left out, and so is the - of the empty key.
pub(crate) fn key_of(heap: Global, digits: &str) -> Result<Vec<u8>, AllocError> {
    let mut key = Vec::new(heap);
    let (pairs, _) = digits.as_bytes().as_chunks::<2>();
    for [high, low] in pairs {
        key.push(nibble(*high) * 16 + nibble(*low))?;
    }
    Ok(key)
}
