// Calls on a new writer.
ghost use Rattle.std.specs.Prelude.{map, OnOk};
ghost use Rattle.format.specs.Sound.{TableReadsBack};
ghost use Rattle.format.specs.Laws.{ReadsTaken};
ghost use Rattle.codec.specs.Meanings.{meaning};
ghost use Rattle.writer.specs.States.{Steps};
ghost use Rattle.sstable.specs.Calls.{call_of};
ghost use Rattle.sstable.specs.Runs.{Runs};

use crate::call::Call;
use codec::value::Codec;
use std::alloc::{AllocError, Global};
use writer::fault::WriterFault;
use writer::writer::Writer;

// Makes one call.
fn apply<C: Codec>(
    writer: &mut Writer<C>,
    call: &Call<'_, C::Value>,
    output: &mut [u8],
) -> Result<(), WriterFault>
    ensures { Steps (meaning C.Codec) (call_of call.now) writer.old output.old result writer.new output.new }
{
    match call {
        Call::Insert(key, value) => writer.insert(key, *value, output),
        Call::InsertKey(key) => writer.insert_key(key),
        Call::InsertValue(value) => writer.insert_value(*value, output),
        Call::Finish => writer.finish(output),
    }
}

// Makes calls on a new writer, all on one output, and gives back what each answered; or touches nothing where there is no
// memory.
pub fn run_calls<C: Codec + Drop>(
    heap: Global,
    calls: &[Call<'_, C::Value>],
    output: &mut [u8],
) -> Result<Vec<Result<(), WriterFault>>, AllocError>
    ensures writing { Runs (meaning C.Codec) calls.now output.old result output.new }
    ensures table { TableReadsBack (meaning C.Codec) }
    ensures reading { OnOk result (ReadsTaken (meaning C.Codec) output.old (map call_of calls.now) output.new) }
{
    let mut answers = Vec::with_capacity(heap, calls.len())?;
    let mut writer = Writer::<C>::new(heap)?;
    for call in calls {
        answers.push_reserved(apply(&mut writer, call, output));
    }
    Ok(answers)
}
