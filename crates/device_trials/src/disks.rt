use crate::sparse::SparseDisk;
use device_faults::Failed;
use jp_disk::{Bytes, Disk, MemoryDisk, Numbers};
use std::alloc::Global;
use std::process::Abort;
use std::test::Fail;

fn disk(
    alloc: Global,
    bytes: &[u8],
    fail_at: &[u64],
    stop_at: Option<u64>,
) -> Result<MemoryDisk, Fail> {
    let bytes = Bytes::from_slice(alloc, bytes)?;
    let fail_at = Numbers::from_slice(alloc, fail_at)?;
    Ok(MemoryDisk::new(bytes, fail_at, stop_at))
}

fn write(rt: &impl Abort, disk: &mut MemoryDisk, at: u64, bytes: &[u8]) -> Result<(), Failed> {
    assert!(rt; at <= disk.bytes().len() as u64);
    assert!(rt; at < 1000 && bytes.len() < 1000);
    disk.write_at(at, bytes)
}

#[test]
fn listed_calls_fail_and_all_from_the_stop_on(rt: HostRuntime) -> Result<(), Fail> {
    let mut disk = disk(rt.alloc(), b"ab", &[2], Some(5))?;
    let mut buf = [0; 3];
    assert!(rt; disk.len() == Ok(2));
    assert!(rt; write(&rt, &mut disk, 1, b"xyz") == Err(Failed));
    assert!(rt; disk.sync() == Ok(()));
    assert!(rt; disk.read_at(1, &mut buf) == Ok(3));
    assert_eq!(rt; buf, *b"xyz");
    assert!(rt; disk.len() == Err(Failed));
    assert!(rt; disk.read_at(9, &mut buf) == Err(Failed));
    assert_eq!(rt; (disk.faults(), disk.refused()), (3, 0));
    let kept = format!(in rt.alloc(); "{:?}", disk.calls())?;
    assert!(rt;
        kept.as_str()
            .starts_with("[Len { done: true }, Write { at: 1, bytes: Sequence")
    );
    assert_eq!(rt; disk.calls().len(), 6);
    Ok(())
}

// `ab`, durable, then `xyz` written at 1 by a call that failed, and `q` at 2. A choice is 1 for each byte lost at the
// end, of which there may be two, 3 for backwards, of `xyz` 6 for each byte missing, 24 for the front and 48 for each
// kind of garbage, and of `q` 192, 384 and 768 for the same.
#[test]
fn each_digit_of_the_choice_picks_its_image(rt: HostRuntime) -> Result<(), Fail> {
    let choices: [(u64, &[u8]); 11] = [
        (0, b"axqz"),
        (2, b"ax"),
        (3, b"axyz"),
        (18, b"abq\0"),
        (6, b"axq\0"),
        (30, b"abqz"),
        (54, b"axq\0"),
        (102, b"axq\x01"),
        (150, b"axq\xff"),
        (192, b"axyz"),
        (211, b"ab\0"),
    ];
    for (choice, image) in choices {
        let mut disk = disk(rt.alloc(), b"ab", &[1], None)?;
        assert!(rt; write(&rt, &mut disk, 1, b"xyz") == Err(Failed));
        assert!(rt; write(&rt, &mut disk, 2, b"q") == Ok(()));
        assert_eq!(rt; disk.crash(choice).bytes(), image, "choice {choice}");
    }
    Ok(())
}

// The trait's calls as code over any disk makes them.
fn write_and_read<D: Disk>(disk: &mut D) -> Result<usize, Failed> {
    disk.write_at(0, b"abc")?;
    disk.sync()?;
    let end = disk.len()?;
    let mut buf = [0; 8];
    disk.read_at(end - end.min(2), &mut buf)
}

#[test]
fn a_disk_that_tells_nothing_meets_the_trait(rt: HostRuntime) -> Result<(), Fail> {
    let mut untold = SparseDisk {
        first: [0; 5],
        end: 7,
    };
    assert!(rt; write_and_read(&mut untold) == Ok(2));
    let mut told = disk(rt.alloc(), b"", &[], None)?;
    assert!(rt; write_and_read(&mut told) == Ok(2));
    assert_eq!(rt; told.bytes(), b"abc".as_slice());
    Ok(())
}
