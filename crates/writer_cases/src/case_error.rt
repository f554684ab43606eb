// Why a case has no sstable.
use format::fault::Tells;
use std::alloc::AllocError;
use thiserror::Error;
use writer::fault::WriterFault;

#[derive(Debug, Drop, Error)]
pub(crate) enum CaseError {
    #[error("fault {number}", number = .0.number())]
    Refused(#[from] WriterFault),
    #[error(transparent)]
    Memory(#[from] AllocError),
}
