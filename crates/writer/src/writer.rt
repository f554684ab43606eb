// A writer of one sstable, under a codec.
use crate::open_table::OpenTable;
use crate::phase::Phase;
use block::keys::Key;
use codec::value::Codec;
use std::marker::Model;

#[derive(Drop)]
pub struct Writer<C: Codec> {
    pub(crate) phase: Phase,
    // the key that waits for its value. It lies beside the phase: within it, each change of phase would copy its 512 bytes, and
    // callers would see the key in what `phase` answers.
    pub(crate) waiting: Key,
    // what is taken and written
    pub(crate) table: OpenTable<C>,
}

impl<C: Codec> Model for Writer<C> {
    ghost use Rattle.writer.specs.States.{State};

    ghost Value = { State C.Value };

    ghost use Rattle.std.specs.Prelude.{◌≤◌, length};
    ghost use Rattle.writer.specs.WriterFields.{writer_view};

    ghost view = { writer_view };

    ghost invariant = { λ w. length w.waiting.items ≤ 512 };
}
