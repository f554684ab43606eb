// Ranges that join within a block: the count of their edges, then the first start, then each rise to the next edge.
ghost use Rattle.std.specs.Prelude.{◌≡◌, ℕ, ◌+◌, ◌≤◌, length, ◌≢◌};
ghost use Rattle.format.specs.Codecs.{Allowed, most};
ghost use Rattle.format.specs.Ranges.{joins, range_rule, range_bytes, range_opens, range_steps, ranges_of};
ghost use Rattle.format.proofs.RangeLaws.{range_back, range_short, range_within, ranges_held};

use crate::fault::CodecFault;
use crate::rises::{MOST_NUMBERS, Rises};
use crate::value::Codec;
use crate::{sums, vint};
use format::{Cursor, Part, Range};
use std::alloc::{AllocError, Global};

#[derive(Drop)]
pub struct RangeValues {
    // the first start, then each end
    edges: Rises,
    ghost few: { length edges ≤ most + 1 },
    ghost paired: { (length edges ≢ 1) },
    ghost allowed: { Allowed range_rule (ranges_of edges) },
}

impl RangeValues {
    // Whether a range may start here: anywhere where there is none before it, else where the last one ends.
    fn joins(&self, start: u64) -> bool
        ensures { result ≡ joins (ranges_of self.now.edges) start }
    {
        self.edges.last().is_none_or(|end| end == start)
    }
}

impl Codec for RangeValues {
    type Value = Range;

    ghost list = { λ c. ranges_of c.edges };

    ghost rule = { range_rule };

    ghost bytes = { range_bytes };

    ghost opens = { range_opens };

    ghost steps = { range_steps };

    ghost back = { range_back };

    ghost short = { range_short };

    ghost within = { range_within };

    ghost held = { λ c. ranges_held c.edges c.allowed c.few };

    fn new(heap: Global) -> Result<RangeValues, AllocError> {
        Ok(RangeValues {
            edges: Rises::new(heap)?,
        })
    }

    fn allows(&self, v: Range) -> bool {
        self.joins(v.start) && v.start <= v.end && self.edges.len() < MOST_NUMBERS
    }

    fn size(&self) -> usize {
        self.edges.size()
    }

    fn size_with(&self, v: Range) -> usize {
        // a range that is not allowed may end below its start
        if self.edges.is_empty() {
            return vint::serialized_len(2)
                + vint::serialized_len(v.start)
                + vint::serialized_len(v.end.saturating_sub(v.start));
        }
        self.edges.size_with(v.end)
    }

    fn write(&mut self, v: Range, ordinal: u64) -> Result<(), CodecFault> {
        self.check(v, ordinal)?;
        if self.edges.is_empty() {
            self.edges.push(v.start);
        }
        self.edges.push(v.end);
        Ok(())
    }

    fn serialize_block(&self, output: &mut [u8]) -> Option<usize> {
        self.edges.serialize(output)
    }

    fn clear(&mut self) {
        self.edges.clear();
    }

    fn load(part: Part<'_>) -> Result<(Cursor, usize), CodecFault> {
        let (next, count) = vint::deserialize_read(part)?;
        let first = match count.checked_sub(1) {
            None => Cursor {
                next,
                ..Cursor::default()
            },
            Some(left) => {
                let (n, last) = vint::deserialize_read(part.rest(next))?;
                Cursor {
                    next: next + n,
                    last,
                    left,
                }
            }
        };
        sums::whole(first, part)
    }

    fn next_value(cursor: &mut Cursor, part: Part<'_>) -> Result<Option<Range>, CodecFault> {
        let start = cursor.last;
        let end = sums::rise(cursor, part)?;
        Ok(end.map(|end| Range { start, end }))
    }
}
