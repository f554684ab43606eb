// The calls on a writer: a refusal changes nothing, and no call but `new` takes memory.
ghost use Rattle.codec.specs.Meanings.{meaning};
ghost use Rattle.std.specs.Prelude.{◌≡◌, ℕ, List, IfOk};
ghost use Rattle.format.specs.Faults.{told};
ghost use Rattle.format.specs.Writing.{new as nothing_taken, insert as an_insert, insert_key as an_insert_key, insert_value as an_insert_value, finish as a_finish};
ghost use Rattle.writer.specs.Standing.{Stands, Calls};
ghost use Rattle.writer.specs.States.{fresh, holds, goes_on, phase_test, Steps};
ghost use Rattle.writer.specs.Told.{of_writer};

use crate::fault::WriterFault;
use crate::keys::KeyRef;
use crate::open_table::OpenTable;
use crate::phase::{Kind, Phase};
use crate::writer::Writer;
use block::keys::Key;
use codec::value::Codec;
use std::alloc::{AllocError, Global};

impl<C: Codec> Writer<C> {
    // A writer that waits for a key. All memory is taken here.
    pub fn new(heap: Global) -> Result<Writer<C>, AllocError>
    where
        C: Drop,
        ensures state { IfOk result (λ w. w ≡ fresh) }
        ensures entries { IfOk result (Stands (meaning C.Codec) nothing_taken) }
    {
        Ok(Writer {
            phase: Phase::WaitsForKey,
            waiting: Key::new(),
            table: OpenTable::new(heap)?,
        })
    }

    // Whether a call comes at its time.
    fn check_phase(&self, call: Kind) -> Result<(), WriterFault>
        ensures { told of_writer result ≡ phase_test self.now.phase call self.now.table.ordinal }
    {
        let ordinal = self.table.ordinal;
        match (self.phase, call) {
            (Phase::Finished, _) => Err(WriterFault::Finished { ordinal }),
            (Phase::WaitsForValue, Kind::InsertValue) => Ok(()),
            (Phase::WaitsForValue, _) => Err(WriterFault::KeyWaits { ordinal }),
            (Phase::WaitsForKey, Kind::InsertValue) => Err(WriterFault::NoKeyWaits { ordinal }),
            (Phase::WaitsForKey, _) => Ok(()),
        }
    }

    // Keeps a key until its value comes.
    fn hold(&mut self, key: &KeyRef<'_>)
        ensures { self.new ≡ holds self.old key.now }
    {
        key.copy_to(&mut self.waiting);
        self.phase = Phase::WaitsForValue;
    }

    // Goes on with no key that waits.
    fn go_on(&mut self, phase: Phase)
        ensures { self.new ≡ goes_on phase self.old.table }
    {
        self.waiting.clear();
        self.phase = phase;
    }

    // Takes an entry, and flushes the block if its delta part becomes long.
    pub fn insert(
        &mut self,
        key: &[u8],
        value: C::Value,
        output: &mut [u8],
    ) -> Result<(), WriterFault>
        ensures steps { Steps (meaning C.Codec) (an_insert key.now value)
            self.old output.old result self.new output.new }
        ensures entries { Calls (meaning C.Codec) (an_insert key.now value)
            self.old output.old result self.new output.new }
    {
        self.check_phase(Kind::Insert)?;
        let key = self.table.check_key(key)?;
        self.table.insert(&key, value, output)?;
        self.go_on(Phase::WaitsForKey);
        Ok(())
    }

    // Takes a key, whose value has to come next.
    pub fn insert_key(&mut self, key: &[u8]) -> Result<(), WriterFault>
        ensures steps { (out : List ℕ) → Steps (meaning C.Codec) (an_insert_key key.now)
            self.old out result self.new out }
        ensures entries { (out : List ℕ) → Calls (meaning C.Codec) (an_insert_key key.now)
            self.old out result self.new out }
    {
        self.check_phase(Kind::InsertKey)?;
        let key = self.table.check_key(key)?;
        self.hold(&key);
        Ok(())
    }

    // Takes the value of the waiting key, and flushes the block if its delta part is long then.
    pub fn insert_value(&mut self, value: C::Value, output: &mut [u8]) -> Result<(), WriterFault>
        ensures steps { Steps (meaning C.Codec) (an_insert_value value)
            self.old output.old result self.new output.new }
        ensures entries { Calls (meaning C.Codec) (an_insert_value value)
            self.old output.old result self.new output.new }
    {
        self.check_phase(Kind::InsertValue)?;
        let key = KeyRef::from(&self.waiting);
        self.table.insert(&key, value, output)?;
        self.go_on(Phase::WaitsForKey);
        Ok(())
    }

    // Writes what is left, and the end marker.
    pub fn finish(&mut self, output: &mut [u8]) -> Result<(), WriterFault>
        ensures steps { Steps (meaning C.Codec) a_finish self.old output.old result self.new output.new }
        ensures entries { Calls (meaning C.Codec) a_finish self.old output.old result self.new output.new }
    {
        self.check_phase(Kind::Finish)?;
        self.table.check_finish(output.len())?;
        self.table.close(output);
        self.go_on(Phase::Finished);
        Ok(())
    }
}
