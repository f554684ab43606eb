// Why no sstable is built. Lines are counted from 1.
ghost use Rattle.std.specs.Prelude.{◌≡◌};
ghost use Rattle.building.specs.declared.fault.BuildFault.TheVariants as build_fault;

use format::fault::Tells;
use std::alloc::AllocError;
use thiserror::Error;
use writer::fault::WriterFault;

#[derive(Clone, Copy, PartialEq, Eq, Debug, Error)]
pub enum BuildFault {
    // a line that is not a key and a value
    #[error("line {line}: not a key and a value")]
    Line { line: usize },
    // an entry that the writer refuses
    #[error("line {line}: fault {number}", number = .fault.number())]
    Entry { line: usize, fault: WriterFault },
    // the writer refuses to finish
    #[error("end: fault {number}", number = .fault.number())]
    End { fault: WriterFault },
    #[error("no memory")]
    Memory,
}

// By hand, since a clause needs to know which fault a `?` makes, and a derived `From` has no contract.
impl From<AllocError> for BuildFault {
    ghost from_gives = { λ _ r. r ≡ build_fault.Memory };

    fn from(_: AllocError) -> BuildFault {
        BuildFault::Memory
    }
}
