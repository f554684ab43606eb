// Building an sstable from text.
ghost use Rattle.std.specs.Prelude.{length};
ghost use Rattle.std.specs.Iterator.{YieldsFirstRef, at_most};
ghost use Rattle.building.specs.Lines.{lines_of};
ghost use Rattle.building.specs.Built.{built, Answers};

use crate::fault::BuildFault;
use crate::line::{parse_line, split_once};
use codec::u64_monotonic::U64MonotonicValues;
use std::alloc::Global;
use writer::writer::Writer;

// The lines of a text, without their newlines; the last one needs none. Not those of the library: its `split` would give one line
// more behind the last newline, and its `lines` take a carriage return off.
#[derive(Drop)]
struct Lines<'a>(&'a [u8]);

impl<'a> Iterator for Lines<'a> {
    type Item = &'a [u8];

    ghost next_gives = { YieldsFirstRef (λ s. lines_of s.0.now) };

    ghost remaining = { λ s. at_most (length s.0.now) };

    fn next(&mut self) -> Option<&'a [u8]> {
        if self.0.is_empty() {
            return None;
        }
        let (line, rest) = split_once(self.0, b'\n').unwrap_or((self.0, &[]));
        self.0 = rest;
        Some(line)
    }
}

// Writes the sstable of the entries that the lines of a text have, and answers how many bytes it has.
pub fn build(heap: Global, text: &[u8], output: &mut [u8]) -> Result<usize, BuildFault>
    ensures { Answers (built (length output.old) text.now) output.old result output.new }
{
    let mut writer = Writer::<U64MonotonicValues>::new(heap)?;
    for (above, line) in Lines(text).enumerate() {
        let number = above + 1;
        let entry = parse_line(heap, line)?.ok_or(BuildFault::Line { line: number })?;
        writer
            .insert(&entry.key, entry.value, output)
            .map_err(|fault| BuildFault::Entry {
                line: number,
                fault,
            })?;
    }
    writer
        .finish(output)
        .map_err(|fault| BuildFault::End { fault })?;
    Ok(writer.written_bytes())
}
