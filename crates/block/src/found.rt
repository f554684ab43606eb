// What is found in a block.

// How many bytes of the key before a suffix follows, where it stands, and its bytes.
#[derive(Clone, Copy)]
pub(crate) struct Suffix<'a> {
    pub(crate) keep: usize,
    pub(crate) place: usize,
    pub(crate) bytes: &'a [u8],
}

// An entry as it stands in the area: what it keeps of the key before, the suffix as a part of the area with its place,
// its ordinal and its value.
#[derive(Clone, Copy)]
pub struct Delta<'a, V> {
    pub keep: usize,
    pub suffix: &'a [u8],
    pub place: usize,
    pub ordinal: u64,
    pub value: V,
}
