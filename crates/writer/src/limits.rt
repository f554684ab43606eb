// The numbers of the format that a writer keeps to.
use block::header::HEADER_MAX_LEN;
use block::keys::KEY_MAX_LEN;

// A block stays open while its delta part has at most so many bytes.
pub(crate) const BLOCK_LEN: usize = 4000;
// The delta part of an open block, and one entry: a header and a key. These are 4,533 bytes.
pub(crate) const DELTA_CAPACITY: usize = BLOCK_LEN + HEADER_MAX_LEN + KEY_MAX_LEN;
// A length word: that of a block, or the end marker.
pub(crate) const WORD_LEN: usize = 4;
// The flag of a block that is not compressed.
pub(crate) const PLAIN: u8 = 0;
