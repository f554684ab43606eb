// The meaning of sorted string tables: definitions that the contracts of all crates cite (specs/), and the plain types
// that they speak of.
#![tactic(auto)]

ghost use Rattle.std.specs.Prelude.{◌≡◌, drop};
ghost use Rattle.format.specs.Worked.{Worked};

pub mod fault;

// A stretch of numbers from `start` up to `end`.
#[derive(Clone, Copy, PartialEq, Eq, Debug)]
pub struct Range {
    pub start: u64,
    pub end: u64,
}

// Where a reading of values stands, the same for all codecs.
#[derive(Clone, Copy, PartialEq, Eq, Debug, Default)]
pub struct Cursor {
    // how many bytes of the value part are behind it
    pub next: usize,
    // the sum of the numbers behind it
    pub last: u64,
    // how many values are still to come
    pub left: u64,
}

// Bytes of an area, and the place that their faults tell.
#[derive(Clone, Copy, Debug)]
pub struct Part<'a> {
    pub bytes: &'a [u8],
    pub place: usize,
}

impl<'a> Part<'a> {
    // What is left of it behind so many bytes: nothing where it has fewer.
    pub fn rest(self, at: usize) -> Part<'a>
        ensures bytes { result.bytes.now ≡ drop at self.entry.bytes.now }
        ensures place { result.place ≡ self.entry.place }
    {
        Part {
            bytes: self.bytes.get(at..).unwrap_or(&[]),
            place: self.place,
        }
    }
}

// A run of a merge: an sstable in a buffer, and how many of its entries the merge has taken.
#[derive(Clone, Copy, PartialEq, Eq, Debug)]
pub struct Run {
    pub start: usize,
    pub len: usize,
    pub taken: usize,
}

// The worked examples hold of the definitions: numbers, headers, sstables, a stream, searches and merges. It answers how many
// they are.
pub fn worked_examples() -> u8
    ensures table { Worked }
    ensures count { result ≡ 32 }
{
    32
}
