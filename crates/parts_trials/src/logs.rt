use build_log::{Log, LogRefusal};
use model_text::Bytes;
use std::alloc::{AllocError, Global};
use std::test::Fail;

/// A log of so many bytes `x`.
fn long_log(alloc: Global, count: usize) -> Result<Log, AllocError> {
    Ok(Log::of(Bytes::from_vec(Vec::from_elem(alloc, b'x', count)?)))
}

#[test]
fn a_line_behind_output_begins_on_a_line_of_its_own(rt: HostRuntime) -> Result<(), Fail> {
    let mut log = Log::new(rt.alloc());
    log.line(b"a")?;
    log.raw(b"b")?;
    log.line(b"c")?;
    log.raw(b"d\n")?;
    log.end_line(b"")?;
    assert_eq!(rt; log.bytes(), b"a\nb\nc\nd\n\n".as_slice());
    Ok(())
}

#[test]
fn a_log_of_16777216_bytes_takes_no_more(rt: HostRuntime) -> Result<(), Fail> {
    let mut log = long_log(rt.alloc(), 16777214)?;
    assert_eq!(rt; log.line(b"y"), Err(LogRefusal::LogLimit));
    assert_eq!(rt; log.raw(b"yyy"), Err(LogRefusal::LogLimit));
    log.line(b"")?;
    assert_eq!(rt; log.bytes().len(), 16777216);
    assert_eq!(rt; log.raw(b"y"), Err(LogRefusal::LogLimit));
    log.raw(b"")?;
    log.end_line(b"Finished: FAILURE")?;
    assert_eq!(rt; log.bytes().len(), 16777234);
    Ok(())
}
