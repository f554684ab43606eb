// Calls on a writer, answer by answer and byte by byte.
use crate::call::Call;
use crate::run::run_calls;
use codec::fault::CodecFault;
use codec::range::RangeValues;
use codec::u64_monotonic::U64MonotonicValues;
use codec::value::Codec;
use codec::void::VoidValues;
use format::Range;
use std::alloc::Global;
use std::process::Abort;
use std::test::Fail;
use writer::fault::WriterFault;
use writer::writer::Writer;

// One byte more than a key has.
static LONG: [u8; 513] = [1; 513];

// Three entries, written and finished.
#[test]
fn three_numbers(rt: HostRuntime) -> Result<(), Fail> {
    let mut output = [7u8; 20];
    let calls = [
        Call::Insert(b"a", 3),
        Call::InsertKey(b"ab"),
        Call::InsertValue(3),
        Call::Insert(b"b", 10),
        Call::Finish,
    ];
    let answers = run_calls::<U64MonotonicValues>(rt.alloc(), &calls, &mut output)?;
    for answer in answers.as_slice() {
        assert_eq!(rt; *answer, Ok(()));
    }
    assert_eq!(rt;
        output,
        [
            0x0b, 0, 0, 0, 0, 3, 3, 0, 7, 0x10, 0x61, 0x11, 0x62, 0x10, 0x62, 0, 0, 0, 0, 7,
        ]
    );
    Ok(())
}

#[test]
fn two_ranges(rt: HostRuntime) -> Result<(), Fail> {
    let mut output = [7u8; 18];
    let calls = [
        Call::Insert(b"a", Range { start: 5, end: 9 }),
        Call::Insert(b"b", Range { start: 9, end: 9 }),
        Call::Finish,
    ];
    let _answers = run_calls::<RangeValues>(rt.alloc(), &calls, &mut output)?;
    assert_eq!(rt;
        output,
        [
            9, 0, 0, 0, 0, 3, 5, 4, 0, 0x10, 0x61, 0x10, 0x62, 0, 0, 0, 0, 7,
        ]
    );
    Ok(())
}

// The empty key may come first; without entries there is only the end marker.
#[test]
fn no_values(rt: HostRuntime) -> Result<(), Fail> {
    let mut output = [7u8; 11];
    let calls = [Call::Insert(b"", ()), Call::Finish];
    let _answers = run_calls::<VoidValues>(rt.alloc(), &calls, &mut output)?;
    assert_eq!(rt; output, [2, 0, 0, 0, 0, 0, 0, 0, 0, 0, 7]);
    let mut shorter = [7u8; 5];
    let _answers = run_calls::<VoidValues>(rt.alloc(), &[Call::Finish], &mut shorter)?;
    assert_eq!(rt; shorter, [0, 0, 0, 0, 7]);
    Ok(())
}

// Each refusal, with its ordinal.
#[test]
fn refusals(rt: HostRuntime) -> Result<(), Fail> {
    let mut output = [7u8; 13];
    let calls = [
        Call::InsertValue(1),
        Call::InsertKey(&LONG),
        Call::InsertKey(b"a"),
        Call::InsertKey(b"b"),
        Call::InsertValue(5),
        Call::Insert(b"a", 6),
        Call::Insert(b"b", 4),
        Call::Insert(b"b", 6),
        Call::Finish,
    ];
    let answers = run_calls::<U64MonotonicValues>(rt.alloc(), &calls, &mut output)?;
    assert!(rt; answers.len() == 9);
    assert_eq!(rt; answers[0], Err(WriterFault::NoKeyWaits { ordinal: 0 }));
    assert_eq!(rt; answers[1], Err(WriterFault::KeyLength { ordinal: 0 }));
    assert_eq!(rt; answers[2], Ok(()));
    assert_eq!(rt; answers[3], Err(WriterFault::KeyWaits { ordinal: 0 }));
    assert_eq!(rt; answers[4], Ok(()));
    assert_eq!(rt; answers[5], Err(WriterFault::KeyOrder { ordinal: 1 }));
    assert_eq!(rt;
        answers[6],
        Err(WriterFault::Codec(CodecFault::Rule { ordinal: 1 }))
    );
    assert_eq!(rt; answers[7], Ok(()));
    assert_eq!(rt; answers[8], Err(WriterFault::OutputShort { ordinal: 2 }));
    assert_eq!(rt; output, [7u8; 13]);
    Ok(())
}

// How many bytes are written after seven keys of 512 bytes, whose delta part has 3,612, and one of so many.
fn written_after(
    rt: &impl Abort,
    heap: Global,
    len: usize,
    output: &mut [u8],
) -> Result<usize, Fail> {
    let mut writer = Writer::<VoidValues>::new(heap)?;
    for i in 1..8u8 {
        assert_eq!(rt; writer.insert(&[i; 512], (), output), Ok(()));
    }
    let last = [8u8; 512];
    if len <= 512 {
        assert_eq!(rt; writer.insert(&last[0..len], (), output), Ok(()));
    }
    Ok(writer.written_bytes())
}

// A delta part of 4,000 bytes stays open; one of 4,001 is flushed.
#[test]
fn border(rt: HostRuntime) -> Result<(), Fail> {
    let mut output = [0u8; 4100];
    assert_eq!(rt; written_after(&rt, rt.alloc(), 384, &mut output)?, 0);
    assert_eq!(rt; written_after(&rt, rt.alloc(), 385, &mut output)?, 4006);
    Ok(())
}

fn says(rt: &impl Abort, heap: Global, fault: WriterFault, expected: &str) -> Result<(), Fail> {
    let message = format!(in heap; "{fault}")?;
    assert_eq!(rt; message.as_str(), expected);
    Ok(())
}

// A refusal says what and where, its codec's refusal too.
#[test]
fn messages(rt: HostRuntime) -> Result<(), Fail> {
    let heap = rt.alloc();
    says(
        &rt,
        heap,
        WriterFault::KeyOrder { ordinal: 7 },
        "the key of entry 7 is not above the last one",
    )?;
    says(
        &rt,
        heap,
        WriterFault::Codec(CodecFault::Rule { ordinal: 3 }),
        "the value of entry 3 may not follow those of its block",
    )
}
