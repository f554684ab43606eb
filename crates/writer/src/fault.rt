// Why a writer refuses a call; each but the codec's tells how many entries were taken.
ghost use Rattle.std.specs.Prelude.{◌≡◌};
ghost use Rattle.writer.specs.Told.{of_writer};
ghost use Rattle.writer.specs.declared.fault.WriterFault.TheVariants as writer_fault;

use codec::fault::CodecFault;
use format::fault::{Fault, Layer, Tells};
use thiserror::Error;

#[derive(Clone, Copy, PartialEq, Eq, Debug, Error)]
pub enum WriterFault {
    // a key over 512 bytes (fault 1)
    #[error("the key of entry {ordinal} has more than 512 bytes")]
    KeyLength { ordinal: u64 },
    // a key that is not above the last taken one (fault 2)
    #[error("the key of entry {ordinal} is not above the last one")]
    KeyOrder { ordinal: u64 },
    // a value against the codec's rule (fault 3)
    #[error(transparent)]
    Codec(CodecFault),
    // a key waits for its value (fault 21)
    #[error("the key of entry {ordinal} waits for its value")]
    KeyWaits { ordinal: u64 },
    // no key waits (fault 22)
    #[error("no key waits for the value of entry {ordinal}")]
    NoKeyWaits { ordinal: u64 },
    // the sstable is finished (fault 23)
    #[error("the sstable is finished, with {ordinal} entries")]
    Finished { ordinal: u64 },
    // the output lacks bytes for what is due (fault 24)
    #[error("the output lacks bytes for what is due after {ordinal} entries")]
    OutputShort { ordinal: u64 },
}

impl Tells for WriterFault {
    ghost told = { of_writer };

    fn tell(&self) -> Fault {
        match *self {
            WriterFault::KeyLength { ordinal } => Fault::new(Layer::Call, 1, ordinal),
            WriterFault::KeyOrder { ordinal } => Fault::new(Layer::Call, 2, ordinal),
            WriterFault::Codec(fault) => fault.tell(),
            WriterFault::KeyWaits { ordinal } => Fault::new(Layer::Call, 21, ordinal),
            WriterFault::NoKeyWaits { ordinal } => Fault::new(Layer::Call, 22, ordinal),
            WriterFault::Finished { ordinal } => Fault::new(Layer::Call, 23, ordinal),
            WriterFault::OutputShort { ordinal } => Fault::new(Layer::Call, 24, ordinal),
        }
    }
}

// By hand, since a derived `From` has no contract, and clauses say which fault a `?` makes.
impl From<CodecFault> for WriterFault {
    ghost from_gives = { λ fault result. result ≡ writer_fault.Codec fault };

    fn from(fault: CodecFault) -> WriterFault {
        WriterFault::Codec(fault)
    }
}
