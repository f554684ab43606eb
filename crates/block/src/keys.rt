// Keys, and their order: byte by byte, a shorter key below its extensions.
ghost use Rattle.std.specs.Prelude.{◌≡◌, ◌≤◌, length};
ghost use Rattle.format.specs.Keys.{below, shared};

use arrayvec::ArrayVec;

// The most bytes that a key has.
pub const KEY_MAX_LEN: usize = 512;

// A key that is kept.
pub type Key = ArrayVec<u8, KEY_MAX_LEN>;

// How many bytes two keys share at their front.
pub fn common_prefix_len(left: &[u8], right: &[u8]) -> usize
    ensures value { result ≡ shared left.now right.now }
    ensures within { result ≤ length right.now }
{
    // both are cut to one length, so that one test a byte sees the end of either
    let shorter = left.len().min(right.len());
    let pairs = left[..shorter].iter().zip(&right[..shorter]);
    pairs.take_while(|(a, b)| a == b).count()
}

// Whether the first key is below the second: at the end of their shared front it has the smaller byte, or none.
// By hand, and not by the library's comparison: `cmp`, `<` and `iter().cmp()` were tried, and each was measured to make
// reading and writing slower; this form does not.
#[tactic(auto, using(format::proofs::KeyLaws::below_front, format::proofs::EntryBack::shared_le))]
pub fn is_below(a: &[u8], b: &[u8]) -> bool
    ensures { result ≡ below a.now b.now }
{
    let front = common_prefix_len(a, b);
    front < b.len() && (front == a.len() || a[front] < b[front])
}
