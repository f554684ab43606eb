// Questions to a writer.
ghost use Rattle.std.specs.Prelude.{◌≡◌, ◌≤◌, length};
ghost use Rattle.codec.specs.Meanings.{meaning};
ghost use Rattle.format.specs.Writing.{output, Room as IsRoom};
ghost use Rattle.writer.specs.Standing.{HoldsOf, phase_of};
ghost use Rattle.writer.specs.States.{Room, Sound};

use crate::phase::Phase;
use crate::writer::Writer;
use codec::value::Codec;

impl<C: Codec> Writer<C> {
    // How many bytes a finish would write if no key waited, or a few more; 0 when finished. The values of the open block take
    // at most 20,030 bytes, its delta part 4,000, and 9 are for the head of a block and the end marker.
    pub fn room(&self) -> usize
        ensures state { Room C.Codec.bytes self.now result }
        ensures entries { HoldsOf (meaning C.Codec) self.now (λ w. IsRoom C.Codec.bytes w result) }
        ensures within { result ≤ 24039 }
    {
        match self.phase {
            Phase::WaitsForKey | Phase::WaitsForValue => self.table.room(),
            Phase::Finished => 0,
        }
    }

    // How many entries were taken.
    pub fn num_terms(&self) -> u64
        ensures state { result ≡ self.now.table.ordinal }
        ensures entries { HoldsOf (meaning C.Codec) self.now (λ w. result ≡ length w.taken) }
        ensures sound { Sound self.now }
    {
        self.table.ordinal
    }

    // How many bytes are written.
    pub fn written_bytes(&self) -> usize
        ensures state { result ≡ self.now.table.end }
        ensures entries { HoldsOf (meaning C.Codec) self.now (λ w. result ≡ length (output C.Codec.bytes w)) }
    {
        self.table.end
    }

    pub fn phase(&self) -> Phase
        ensures state { result ≡ self.now.phase }
        ensures entries { HoldsOf (meaning C.Codec) self.now (λ w. result ≡ phase_of w.waits) }
    {
        self.phase
    }
}
