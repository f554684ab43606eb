// Lines that parse and lines that do not, and the message of each fault.
use crate::line::parse_line;
use crate::text::build;
use crate::whole::build_vec;
use std::alloc::Global;
use std::process::Abort;
use std::test::Fail;

// What a build of a text tells, or how many bytes it wrote.
fn told(heap: Global, text: &[u8], output: &mut [u8]) -> Result<String, Fail> {
    match build(heap, text, output) {
        Ok(len) => Ok(format!(in heap; "{len} bytes")?),
        Err(fault) => Ok(format!(in heap; "{fault}")?),
    }
}

fn tells(rt: &impl Abort, heap: Global, text: &[u8], expected: &str) -> Result<(), Fail> {
    let mut output = [0u8; 40];
    assert!(rt; told(heap, text, &mut output)?.as_str() == expected);
    Ok(())
}

fn is_bad(rt: &impl Abort, heap: Global, line: &[u8]) -> Result<(), Fail> {
    assert!(rt; parse_line(heap, line)?.is_none());
    Ok(())
}

// Digits of either case, and the largest value.
#[test]
fn parses(rt: HostRuntime) -> Result<(), Fail> {
    let line = parse_line(rt.alloc(), b"0aFf\t18446744073709551615")?;
    let Some(line) = line else {
        assert!(rt; false);
        return Ok(());
    };
    assert!(rt; line.value == u64::MAX);
    assert!(rt; line.key.as_slice() == [0x0a, 0xff].as_slice());
    Ok(())
}

#[test]
fn parses_nothing(rt: HostRuntime) -> Result<(), Fail> {
    is_bad(&rt, rt.alloc(), b"")?;
    is_bad(&rt, rt.alloc(), b"61")?;
    is_bad(&rt, rt.alloc(), b"61\t")?;
    is_bad(&rt, rt.alloc(), b"6\t1")?;
    is_bad(&rt, rt.alloc(), b"6g\t1")?;
    is_bad(&rt, rt.alloc(), b"61\t1 ")?;
    is_bad(&rt, rt.alloc(), b"61\t18446744073709551616")
}

#[test]
fn messages(rt: HostRuntime) -> Result<(), Fail> {
    tells(&rt, rt.alloc(), b"", "4 bytes")?;
    tells(&rt, rt.alloc(), b"61\t3\n62\t4", "16 bytes")?;
    tells(
        &rt,
        rt.alloc(),
        b"61\t3\n\n62\t4",
        "line 2: not a key and a value",
    )?;
    tells(&rt, rt.alloc(), b"62\t3\n61\t4\n", "line 2: fault 2")?;
    tells(&rt, rt.alloc(), b"61\t3\n62\t2\n", "line 2: fault 3")?;
    tells(
        &rt,
        rt.alloc(),
        b"61616161616161616161616161616161616161616161616161616161616161616161616161616161\t1",
        "end: fault 24",
    )
}

// The bytes of the third worked example of docs/FORMAT.md.
#[test]
fn whole_input(rt: HostRuntime) -> Result<(), Fail> {
    let sstable = build_vec(rt.alloc(), b"61\t3\n6162\t3\n62\t10\n")?;
    let expected = b"\x0b\0\0\0\0\x03\x03\x00\x07\x10a\x11b\x10b\0\0\0\0";
    assert!(rt; sstable.as_slice() == expected.as_slice());
    Ok(())
}
