// What can be wrong with a number and with the values of a block.
ghost use Rattle.std.specs.Prelude.{◌≡◌};
ghost use Rattle.codec.specs.Told.{of_number, of_codec};
ghost use Rattle.codec.specs.declared.fault.CodecFault.TheVariants as codec_fault;

use format::fault::{Fault, Layer, Tells};
use thiserror::Error;

// Bytes that are no number: none at all, without an end within ten bytes, or above 2^64-1 (fault 6).
#[derive(Clone, Copy, PartialEq, Eq, Debug, Error)]
pub enum NumberFault {
    #[error("no number at byte {place}")]
    Bad { place: usize },
}

#[derive(Clone, Copy, PartialEq, Eq, Debug, Error)]
pub enum CodecFault {
    #[error(transparent)]
    Number(NumberFault),
    // a value that may not follow those of its block (fault 3)
    #[error("the value of entry {ordinal} may not follow those of its block")]
    Rule { ordinal: u64 },
    // a running sum above 2^64-1 (fault 7)
    #[error("a sum above 2^64-1 in the values at byte {place}")]
    Sum { place: usize },
}

// A place becomes a u64 by `as`: std has no `From<usize>` for it.
impl Tells for NumberFault {
    ghost told = { of_number };

    fn tell(&self) -> Fault {
        match *self {
            NumberFault::Bad { place } => Fault::new(Layer::Number, 6, place as u64),
        }
    }
}

impl Tells for CodecFault {
    ghost told = { of_codec };

    fn tell(&self) -> Fault {
        match *self {
            CodecFault::Number(fault) => fault.tell(),
            CodecFault::Rule { ordinal } => Fault::new(Layer::Codec, 3, ordinal),
            CodecFault::Sum { place } => Fault::new(Layer::Codec, 7, place as u64),
        }
    }
}

// By hand, since a derived `From` has no contract, and clauses say which fault a `?` makes.
impl From<NumberFault> for CodecFault {
    ghost from_gives = { λ fault result. result ≡ codec_fault.Number fault };

    fn from(fault: NumberFault) -> CodecFault {
        CodecFault::Number(fault)
    }
}
