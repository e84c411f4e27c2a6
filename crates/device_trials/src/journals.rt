use crate::sparse::SparseDisk;
use journal_core::{AppendFault, CreateFault, Journal, OpenFault, ReadFault, Record};
use jp_disk::{Bytes, Disk, MemoryDisk, Numbers};
use std::alloc::Global;
use std::process::Abort;
use std::test::Fail;

fn disk(
    alloc: Global,
    bytes: &[u8],
    fail_at: &[u64],
    stop_at: Option<u64>,
) -> Result<MemoryDisk, Fail> {
    let bytes = Bytes::from_slice(alloc, bytes)?;
    let fail_at = Numbers::from_slice(alloc, fail_at)?;
    Ok(MemoryDisk::new(bytes, fail_at, stop_at))
}

fn expect_created<D: Disk + Drop>(rt: &impl Abort, disk: D) -> Journal<D> {
    match Journal::create(disk) {
        Ok(journal) => journal,
        Err((fault, _)) => panic!(rt; "{fault}"),
    }
}

#[test]
fn the_bytes_of_a_record(rt: HostRuntime) -> Result<(), Fail> {
    let alloc = rt.alloc();
    let mut journal = expect_created(&rt, disk(alloc, b"", &[], None)?);
    assert!(rt; journal.append(alloc, b"abc") == Ok(9));
    let disk = journal.close();
    assert_eq!(rt;
        disk.bytes(),
        [1, 0, 0, 0, 3, 0x61, 0x62, 0x63, 0].as_slice()
    );
    let long = vec![in alloc; 7; 258]?;
    let mut journal = match Journal::open(alloc, disk) {
        Ok((journal, _)) => journal,
        Err((fault, _)) => panic!(rt; "{fault}"),
    };
    assert!(rt; journal.append(alloc, &long) == Ok(272));
    let disk = journal.close();
    assert_eq!(rt; disk.bytes().len(), 272);
    let second = [1, 0, 0, 1, 2, 7];
    assert_eq!(rt; &disk.bytes()[8..14], second.as_slice());
    Ok(())
}

// A journal of one record of 1,073,741,809 bytes (3f ff ff f1), which ends at 1,073,741,814.
#[test]
fn the_limit_of_a_journal(rt: HostRuntime) -> Result<(), Fail> {
    let alloc = rt.alloc();
    let disk = SparseDisk {
        first: [1, 0x3f, 0xff, 0xff, 0xf1],
        end: 1_073_741_815,
    };
    match Journal::open(alloc, disk) {
        Ok((mut journal, entries)) => {
            assert_eq!(rt;
                entries.as_slice(),
                [Record {
                    at: 0,
                    len: 1_073_741_809
                }]
                .as_slice()
            );
            let full = AppendFault::Full {
                len: 1_073_741_815,
                add: 10,
            };
            assert!(rt; journal.append(alloc, b"abcde") == Err(full));
            assert!(rt; journal.append(alloc, b"abcd") == Ok(1_073_741_824));
            let full = AppendFault::Full {
                len: 1_073_741_824,
                add: 5,
            };
            assert!(rt; journal.append(alloc, b"") == Err(full));
        }
        Err((fault, _)) => panic!(rt; "{fault}"),
    }
    Ok(())
}

#[test]
fn files_without_a_whole_record(rt: HostRuntime) -> Result<(), Fail> {
    let alloc = rt.alloc();
    let files: [(&[u8], OpenFault); 7] = [
        (b"", OpenFault::Empty),
        (b"\x01", OpenFault::Empty),
        (b"\x01\0\0\0\0", OpenFault::Empty),
        (b"\0\0\0\0\x03abc\0", OpenFault::Empty),
        (b"\x02\0\0\0\x03abc\0", OpenFault::Empty),
        (b"\x01\0\0\0\x09a\0", OpenFault::Damaged { at: 0 }),
        (
            b"\x01\0\0\0\x03abc\x01\0\0\0\x01b",
            OpenFault::Damaged { at: 8 },
        ),
    ];
    for (bytes, want) in files {
        match Journal::open(alloc, disk(alloc, bytes, &[], None)?) {
            Ok(_) => panic!(rt; "{bytes:?} opened"),
            Err((fault, disk)) => {
                assert_eq!(rt; fault, want, "{bytes:?}");
                assert_eq!(rt; disk.bytes(), bytes);
            }
        }
    }
    Ok(())
}

#[test]
fn files_that_a_journal_may_begin_in(rt: HostRuntime) -> Result<(), Fail> {
    let alloc = rt.alloc();
    let files: [(&[u8], &[u8]); 4] = [
        (b"", b"\0"),
        (b"\x01", b"\0"),
        (b"\x01\0\0\0\x01", b"\0\0\0\0\x01"),
        (b"\x02\0\0\0\x01b\0", b"\x02\0\0\0\x01b\0"),
    ];
    for (bytes, want) in files {
        let disk = expect_created(&rt, disk(alloc, bytes, &[], None)?).close();
        assert_eq!(rt; disk.bytes(), want);
    }
    match Journal::create(disk(alloc, b"\x01\0\0\0\x01b", &[], None)?) {
        Ok(_) => panic!(rt; "began over a record"),
        Err((fault, disk)) => {
            assert_eq!(rt; fault, CreateFault::HasRecord);
            assert_eq!(rt; disk.bytes(), b"\x01\0\0\0\x01b".as_slice());
        }
    }
    Ok(())
}

const PAYLOADS: [&[u8]; 3] = [b"a", b"", b"b"];

// Creates a journal and appends three records: the disk, and how many of them were acknowledged.
fn three_appends(rt: &impl Abort, alloc: Global, disk: MemoryDisk) -> (MemoryDisk, usize) {
    match Journal::create(disk) {
        Ok(mut journal) => {
            let mut acknowledged = 0usize;
            for payload in PAYLOADS {
                match journal.append(alloc, payload) {
                    Ok(_) => acknowledged = acknowledged.saturating_add(1),
                    Err(fault) => {
                        assert!(rt; fault == AppendFault::Disk || fault == AppendFault::Stopped);
                    }
                }
            }
            (journal.close(), acknowledged)
        }
        Err((fault, disk)) => {
            assert_eq!(rt; fault, CreateFault::Disk);
            (disk, 0)
        }
    }
}

// The file has the acknowledged records, or these and the next one.
fn check_records(rt: &impl Abort, alloc: Global, disk: MemoryDisk, acknowledged: usize) {
    match Journal::open(alloc, disk) {
        Ok((mut journal, entries)) => {
            assert!(rt;
                acknowledged <= entries.len() && entries.len() <= acknowledged.saturating_add(1)
            );
            assert!(rt; entries.len() <= PAYLOADS.len());
            for k in 0..entries.len() {
                match journal.read(alloc, entries[k]) {
                    Ok(payload) => assert_eq!(rt; payload.as_slice(), PAYLOADS[k]),
                    Err(fault) => panic!(rt; "{fault}"),
                }
            }
        }
        Err((fault, _)) => {
            assert_eq!(rt; fault, OpenFault::Empty);
            assert_eq!(rt; acknowledged, 0);
        }
    }
}

// Creating over an empty file is four calls of the disk: sync, length, write, sync. Each append is four more: write,
// sync, write, sync. A write is pending where the disk stops at it, since it is done all the same, and at the sync.
#[test]
fn a_stop_at_each_write_and_sync_and_a_crash_by_each_choice(rt: HostRuntime) -> Result<(), Fail> {
    let alloc = rt.alloc();
    // The call that writes, how many bytes, and by how many the file grows.
    let writes = [
        (3, 1, 1),
        (5, 6, 6),
        (7, 1, 0),
        (9, 5, 5),
        (11, 1, 0),
        (13, 6, 6),
        (15, 1, 0),
    ];
    for (call, bytes, grown) in writes {
        for stop_at in call..call + 2 {
            for choice in 0..(grown + 1) * 2 * (bytes + 1) * 2 * 4 {
                let disk = disk(alloc, b"", &[], Some(stop_at))?;
                let (disk, acknowledged) = three_appends(&rt, alloc, disk);
                check_records(&rt, alloc, disk.crash(choice), acknowledged);
            }
        }
    }
    Ok(())
}

#[test]
fn each_call_fails_in_turn(rt: HostRuntime) -> Result<(), Fail> {
    let alloc = rt.alloc();
    for call in 1..17 {
        let (disk, acknowledged) = three_appends(&rt, alloc, disk(alloc, b"", &[call], None)?);
        assert_eq!(rt; disk.faults(), 1);
        assert_eq!(rt; acknowledged as u64, ((call - 1) / 4).saturating_sub(1));
        check_records(&rt, alloc, disk.crash(0), acknowledged);
    }
    Ok(())
}

// Opening three records is six calls of the disk: sync, length, and a read for each gate.
#[test]
fn each_call_of_an_opening_fails_in_turn(rt: HostRuntime) -> Result<(), Fail> {
    let alloc = rt.alloc();
    let (whole, _) = three_appends(&rt, alloc, disk(alloc, b"", &[], None)?);
    for call in 1..7 {
        match Journal::open(alloc, disk(alloc, whole.bytes(), &[call], None)?) {
            Ok(_) => panic!(rt; "call {call} did not fail"),
            Err((fault, disk)) => {
                assert_eq!(rt; fault, OpenFault::Disk);
                assert_eq!(rt; disk.bytes(), whole.bytes());
                check_records(&rt, alloc, disk, 3);
            }
        }
    }
    Ok(())
}

// Reads the payloads in turn up to the first that fails: which one that is.
fn first_unread(rt: &impl Abort, alloc: Global, disk: MemoryDisk) -> Option<usize> {
    match Journal::open(alloc, disk) {
        Ok((mut journal, entries)) => {
            assert!(rt; entries.len() <= PAYLOADS.len());
            for k in 0..entries.len() {
                match journal.read(alloc, entries[k]) {
                    Ok(payload) => assert_eq!(rt; payload.as_slice(), PAYLOADS[k]),
                    Err(fault) => {
                        assert_eq!(rt; fault, ReadFault::Disk);
                        return Some(k);
                    }
                }
            }
            None
        }
        Err((fault, _)) => panic!(rt; "{fault}"),
    }
}

// Behind the six calls of the opening each payload that has bytes is one call: that of the first record, and that of
// the third.
#[test]
fn each_call_of_a_read_fails_in_turn(rt: HostRuntime) -> Result<(), Fail> {
    let alloc = rt.alloc();
    let (whole, _) = three_appends(&rt, alloc, disk(alloc, b"", &[], None)?);
    for (call, unread) in [(7, Some(0)), (8, Some(2)), (9, None)] {
        let disk = disk(alloc, whole.bytes(), &[call], None)?;
        assert_eq!(rt; first_unread(&rt, alloc, disk), unread);
    }
    Ok(())
}
