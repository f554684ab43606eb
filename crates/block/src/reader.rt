// A reader of the entries of an area, under a codec.
use crate::fault::ReadFault;
use crate::position::Position;
use codec::value::Codec;
use std::marker::{Model, PhantomData};

// An end and a fault are remembered. Three states, each with a name: an Option of a Result would say them no plainer.
#[derive(Clone, Copy)]
pub(crate) enum Phase {
    Reading,
    Ended,
    Faulted(ReadFault),
}

#[derive(Drop)]
pub struct DeltaReader<C: Codec> {
    pub(crate) position: Position,
    pub(crate) phase: Phase,
    pub(crate) codec: PhantomData<C>,
}

impl<C: Codec> Model for DeltaReader<C> {
    ghost use Rattle.format.specs.Reading.{Standing};

    ghost Value = { Standing };

    ghost use Rattle.block.specs.Readers.{standing_in};

    ghost view = { λ r. standing_in r.phase r.position };
}
