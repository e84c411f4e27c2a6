use device_faults::Failed;
use jp_io::{
    CleanSink, CleanSource, LazyFile, MemorySink, MemorySource, ReadFault, Sink, StdSink,
    StdSource, read_up_to, write_all,
};
use std::alloc::{AllocError, Global};
use std::fs;
use std::io::Cursor;
use std::test::Fail;

fn source(alloc: Global, bytes: &[u8], fail_at: &[u64]) -> Result<MemorySource, AllocError> {
    Ok(MemorySource::new(
        Vec::from_slice(alloc, bytes)?,
        Vec::from_slice(alloc, fail_at)?,
    ))
}

#[test]
fn a_source_is_read_to_its_end_or_the_limit(rt: HostRuntime) -> Result<(), Fail> {
    let alloc = rt.alloc();
    for (limit, want) in [(0, ""), (3, "abc"), (5, "abcde"), (6, "abcde")] {
        let bytes = read_up_to(alloc, &mut source(alloc, b"abcde", &[])?, limit)?;
        assert_eq!(rt; bytes.as_slice(), want.as_bytes(), "up to {limit}");
    }
    Ok(())
}

#[test]
fn an_input_of_many_pieces_is_read_whole(rt: HostRuntime) -> Result<(), Fail> {
    let alloc = rt.alloc();
    let long = vec![in alloc; 7; 10_000]?;
    let mut clean = CleanSource::new(long);
    let bytes = read_up_to(alloc, &mut clean, 1_000_000)?;
    assert_eq!(rt; bytes.len(), 10_000);
    Ok(())
}

#[test]
fn each_failing_read_is_answered_failed(rt: HostRuntime) -> Result<(), Fail> {
    let alloc = rt.alloc();
    for call in [1, 2] {
        let mut failing = source(alloc, b"abc", &[call])?;
        let answer = read_up_to(alloc, &mut failing, 10).err();
        assert_eq!(rt; answer, Some(ReadFault::Failed), "call {call}");
    }
    Ok(())
}

#[test]
fn a_sink_keeps_what_was_written_until_it_fails(rt: HostRuntime) -> Result<(), Fail> {
    let alloc = rt.alloc();
    let mut sink = MemorySink::new(alloc, Vec::from_slice(alloc, &[3])?);
    assert_eq!(rt; write_all(&mut sink, b"one "), Ok(()));
    assert_eq!(rt; write_all(&mut sink, b"two"), Ok(()));
    assert_eq!(rt; write_all(&mut sink, b"three"), Err(Failed));
    assert_eq!(rt; sink.bytes(), b"one two".as_slice());
    assert_eq!(rt; write_all(&mut CleanSink, b"any"), Ok(()));
    Ok(())
}

#[test]
fn a_file_is_read_and_a_missing_one_fails_each_time(rt: HostRuntime) -> Result<(), Fail> {
    let alloc = rt.alloc();
    fs::write(&rt, "script", "echo")?;
    let there = LazyFile::new(&rt, String::from_str(alloc, "script")?);
    let bytes = read_up_to(alloc, &mut StdSource::new(there), 10)?;
    assert_eq!(rt; bytes.as_slice(), b"echo".as_slice());
    let missing = LazyFile::new(&rt, String::from_str(alloc, "no such file")?);
    let mut source = StdSource::new(missing);
    for time in [1, 2] {
        let answer = read_up_to(alloc, &mut source, 10).err();
        assert_eq!(rt; answer, Some(ReadFault::Failed), "time {time}");
    }
    Ok(())
}

#[test]
fn a_writer_that_takes_no_byte_is_a_fault(rt: HostRuntime) -> Result<(), Fail> {
    let mut room = [0; 4];
    let mut sink = StdSink::new(Cursor::new(&mut room[..]));
    assert_eq!(rt; write_all(&mut sink, b"four"), Ok(()));
    assert_eq!(rt; sink.write(b""), Ok(0));
    assert_eq!(rt; sink.write(b"five"), Err(Failed));
    Ok(())
}
