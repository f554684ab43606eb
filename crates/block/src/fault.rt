// What can be wrong with a block, and with the area that a reader is given.
ghost use Rattle.std.specs.Prelude.{◌≡◌};
ghost use Rattle.block.specs.Told.{of_block, of_read};
ghost use Rattle.block.specs.declared.fault.BlockFault.TheVariants as block_fault;
ghost use Rattle.block.specs.declared.fault.ReadFault.TheVariants as read_fault;

use codec::fault::{CodecFault, NumberFault};
use format::fault::{Fault, Layer, Tells};
use thiserror::Error;

#[derive(Clone, Copy, PartialEq, Eq, Debug, Error)]
pub enum BlockFault {
    // a header that is none (fault 6)
    #[error(transparent)]
    Number(NumberFault),
    // a value part that is none (faults 6 and 7)
    #[error(transparent)]
    Codec(CodecFault),
    // cut short (fault 4)
    #[error("the block at byte {place} is cut short")]
    Short { place: usize },
    // compressed (fault 5)
    #[error("the block at byte {place} is compressed")]
    Compressed { place: usize },
    // a suffix past the block (fault 8)
    #[error("the suffix of the entry at byte {place} goes past its block")]
    Suffix { place: usize },
    // a key that keeps more than there is, or is not above the one before (fault 9)
    #[error("the key of the entry at byte {place} does not follow the key before")]
    Order { place: usize },
    // a key over 512 bytes (fault 10)
    #[error("the key of the entry at byte {place} has more than 512 bytes")]
    Length { place: usize },
    // no value for the entry (fault 11)
    #[error("the entry at byte {place} has no value")]
    NoValue { place: usize },
}

#[derive(Clone, Copy, PartialEq, Eq, Debug, Error)]
pub enum ReadFault {
    #[error(transparent)]
    Block(BlockFault),
    // a place, or a block that was being read, outside the area (fault 14)
    #[error("byte {place} lies outside the area, or its block does")]
    Outside { place: usize },
}

// A place becomes a u64 by `as`: std has no `From<usize>` for it.
impl Tells for BlockFault {
    ghost told = { of_block };

    fn tell(&self) -> Fault {
        match *self {
            BlockFault::Number(fault) => fault.tell(),
            BlockFault::Codec(fault) => fault.tell(),
            BlockFault::Short { place } => Fault::new(Layer::Block, 4, place as u64),
            BlockFault::Compressed { place } => Fault::new(Layer::Block, 5, place as u64),
            BlockFault::Suffix { place } => Fault::new(Layer::Block, 8, place as u64),
            BlockFault::Order { place } => Fault::new(Layer::Block, 9, place as u64),
            BlockFault::Length { place } => Fault::new(Layer::Block, 10, place as u64),
            BlockFault::NoValue { place } => Fault::new(Layer::Block, 11, place as u64),
        }
    }
}

impl Tells for ReadFault {
    ghost told = { of_read };

    fn tell(&self) -> Fault {
        match *self {
            ReadFault::Block(fault) => fault.tell(),
            ReadFault::Outside { place } => Fault::new(Layer::Call, 14, place as u64),
        }
    }
}

// By hand, since a derived `From` has no contract, and clauses say which fault a `?` makes.
impl From<NumberFault> for BlockFault {
    ghost from_gives = { λ fault result. result ≡ block_fault.Number fault };

    fn from(fault: NumberFault) -> BlockFault {
        BlockFault::Number(fault)
    }
}

impl From<CodecFault> for BlockFault {
    ghost from_gives = { λ fault result. result ≡ block_fault.Codec fault };

    fn from(fault: CodecFault) -> BlockFault {
        BlockFault::Codec(fault)
    }
}

impl From<BlockFault> for ReadFault {
    ghost from_gives = { λ fault result. result ≡ read_fault.Block fault };

    fn from(fault: BlockFault) -> ReadFault {
        ReadFault::Block(fault)
    }
}
