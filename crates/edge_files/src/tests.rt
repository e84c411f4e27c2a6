//! What real files do. Each test has files of its own name.

use super::*;
use std::fmt::Debug;
use std::process::Abort;
use std::rt::Files;
use std::test::Fail;
use std::time::Duration;
use std::{fs, io, thread};

// The test fails where what was found is not what was wanted.
fn expect<T: PartialEq + Debug + Drop>(rt: &impl Abort, found: T, wanted: T) {
    assert_eq!(rt; found, wanted);
}

// Writes a file.
fn put(rt: &HostRuntime, path: &str, text: &str) -> io::Result<()> {
    fs::write(rt, path, text)
}

// The file has these bytes.
fn expect_file<R: Files + AllocGlobal + Abort>(rt: &R, path: &str, bytes: &[u8]) -> io::Result<()> {
    let found = fs::read(rt, path)?;
    expect(rt, found.as_slice(), bytes);
    Ok(())
}

#[test]
fn missing_folders_are_made_and_those_that_are_there_stay(rt: HostRuntime) -> Result<(), Fail> {
    sync::make_durable(&rt, "levels/of/folders")?;
    put(&rt, "levels/of/folders/kept", "x")?;
    sync::make_durable(&rt, "levels/of/folders")?;
    expect_file(&rt, "levels/of/folders/kept", b"x")?;
    put(&rt, "levels/file", "")?;
    assert!(rt; sync::make_durable(&rt, "levels/file/below").is_err());
    Ok(())
}

#[test]
fn a_folder_in_the_place_of_a_durable_one_is_not(rt: HostRuntime) -> Result<(), Fail> {
    let mut parent = DurableFolder::new();
    for _ in 0..2 {
        expect(&rt, parent.is_durable(&rt, "parents/w@tmp"), false);
        parent.make(&rt, "parents/w@tmp")?;
        let is_told = fs::metadata(&rt, "parents/w@tmp")?.created().is_ok();
        expect(&rt, parent.is_durable(&rt, "parents/w@tmp"), is_told);
        expect(&rt, parent.is_durable(&rt, "parents"), false);
        thread::sleep(&rt, Duration::from_millis(20));
        fs::remove_dir(&rt, "parents/w@tmp")?;
        expect(&rt, parent.is_durable(&rt, "parents/w@tmp"), false);
        fs::create_dir(&rt, "parents/w@tmp")?;
    }
    Ok(())
}

#[test]
fn a_folder_whose_holder_cannot_be_synced_goes_again(rt: HostRuntime) -> Result<(), Fail> {
    fs::create_dir(&rt, "unsynced")?;
    assert!(rt; sync::sync_made(&rt, "no such holder", "unsynced").is_err());
    expect(&rt, fs::exists(&rt, "unsynced")?, false);
    Ok(())
}

// A build's identity as its store keeps it.
const IDENTITY: &str = "00112233445566778899aabbccddeeff\n";

#[test]
fn a_line_gives_an_identity_or_none(rt: HostRuntime) -> Result<(), Fail> {
    for (line, takes_unnamed) in [
        (IDENTITY, false),
        ("00112233445566778899aabbccddeeff older\n", true),
    ] {
        let identity = Identity::parse(line).ok_or("an identity")?;
        expect(&rt, identity.takes_unnamed, takes_unnamed);
        expect(
            &rt,
            [identity.build.bits[0], identity.build.bits[15]],
            [0, 255],
        );
        expect(&rt, identity.line(rt.alloc())?.as_str(), line);
    }
    for line in [
        "",
        "\n",
        "00112233445566778899aabbccddeeff",
        "0011\n",
        "00112233445566778899aabbccddeefg\n",
    ] {
        expect(&rt, Identity::parse(line), None);
    }
    Ok(())
}

#[test]
fn two_builds_have_two_identities(rt: HostRuntime) -> Result<(), Fail> {
    assert_ne!(rt; BuildId::random(&rt)?, BuildId::random(&rt)?);
    expect(&rt, Identity::read(&rt, "no such file")?, None);
    let identity = Identity {
        build: BuildId::random(&rt)?,
        takes_unnamed: false,
    };
    put(
        &rt,
        "written.lock",
        "a longer text than that of an identity, which goes when it is written",
    )?;
    identity.write(&rt, "written.lock")?;
    expect(&rt, Identity::read(&rt, "written.lock")?, Some(identity));
    Ok(())
}

// The store of this name.
fn store<'a>(
    rt: &'a HostRuntime,
    name: &str,
    how: StoreUse,
) -> io::Result<StoreFile<'a, HostRuntime>> {
    let alloc = rt.alloc();
    let paths = StorePaths {
        store: format!(in alloc; "{name}.dat")?,
        sums: format!(in alloc; "{name}.sum")?,
        identity: format!(in alloc; "{name}.lock")?,
    };
    Ok(StoreFile::new(rt, paths, how))
}

// Adds a record behind the gate at `at`, as a journal does.
fn add(store: &mut StoreFile<'_, HostRuntime>, at: u64, record: &[u8]) -> io::Result<()> {
    store.write_at(at.saturating_add(1), record)?;
    store.sync()?;
    store.write_at(at, b"\x01")?;
    store.sync()
}

// A store of two records, `abc` and `d`.
fn two_records(rt: &HostRuntime, name: &str) -> io::Result<()> {
    let mut store = store(rt, name, StoreUse::Begins)?;
    store.write_at(0, b"\0")?;
    store.sync()?;
    add(&mut store, 0, b"\0\0\0\x03abc\0")?;
    add(&mut store, 8, b"\0\0\0\x01d\0")
}

// The digests of 32 zeros and the first record, and of that digest and the second one, as another program computes them.
const SUMS: [&str; 2] = [
    "b397e8229313e9dbdafe114e5c1e31c55e152e12724920e69bf06147c85b5792",
    "e1a8f67524fbf0d92a88cd0d76c1dfcf026bc9eaedd7ee422da3a2173839487d",
];

#[test]
fn each_record_has_a_sum_and_a_store_its_identity(rt: HostRuntime) -> Result<(), Fail> {
    two_records(&rt, "summed")?;
    let identity = Identity::read(&rt, "summed.lock")?.ok_or("an identity")?;
    let sums = hex::encode(rt.alloc(), fs::read(&rt, "summed.sum")?.as_slice())?;
    let digits = hex::encode(rt.alloc(), identity.build.bits)?;
    let head = hex::encode(rt.alloc(), b"controller sums\n".as_slice())?;
    let [first, second] = SUMS;
    let wanted = format!(in rt.alloc(); "{head}{digits}{first}{second}")?;
    expect(&rt, sums.as_str(), wanted.as_str());
    Ok(())
}

#[test]
fn a_byte_that_changed_is_found_and_the_store_is_left_alone(rt: HostRuntime) -> Result<(), Fail> {
    // The gates and the payloads of both records, and a length that is shorter then.
    for at in [0, 4, 5, 6, 7, 8, 13] {
        two_records(&rt, "changed")?;
        let mut bytes = fs::read(&rt, "changed.dat")?;
        for (index, byte) in bytes.as_mut_slice().iter_mut().enumerate() {
            *byte ^= if index == at { 2 } else { 0 };
        }
        fs::write(&rt, "changed.dat", bytes.as_slice())?;
        for how in [StoreUse::Reads, StoreUse::Begins, StoreUse::GoesOn] {
            let mut store = store(&rt, "changed", how)?;
            assert!(rt; store.len().is_err(), "at {at}");
            assert!(rt; store.write_at(0, b"x").is_err() && store.sync().is_err());
        }
        expect_file(&rt, "changed.dat", bytes.as_slice())?;
        fs::remove_file(&rt, "changed.dat")?;
    }
    Ok(())
}

#[test]
fn a_store_that_is_gone_leaves_sums_that_nobody_minds(rt: HostRuntime) -> Result<(), Fail> {
    two_records(&rt, "gone")?;
    fs::remove_file(&rt, "gone.dat")?;
    for how in [StoreUse::Reads, StoreUse::GoesOn, StoreUse::Begins] {
        expect(&rt, store(&rt, "gone", how)?.len()?, 0);
    }
    two_records(&rt, "gone")?;
    expect(&rt, store(&rt, "gone", StoreUse::GoesOn)?.len()?, 15);
    Ok(())
}

#[test]
fn a_store_of_one_record_whose_gate_was_closed_is_left_alone(rt: HostRuntime) -> Result<(), Fail> {
    let mut begun = store(&rt, "one", StoreUse::Begins)?;
    begun.write_at(0, b"\0")?;
    begun.sync()?;
    add(&mut begun, 0, b"\0\0\0\x03abc\0")?;
    let mut bytes = fs::read(&rt, "one.dat")?;
    if let Some(gate) = bytes.as_mut_slice().first_mut() {
        *gate = 0;
    }
    fs::write(&rt, "one.dat", bytes.as_slice())?;
    for how in [StoreUse::Reads, StoreUse::Begins, StoreUse::GoesOn] {
        assert!(rt; store(&rt, "one", how)?.len().is_err());
    }
    expect_file(&rt, "one.dat", bytes.as_slice())?;
    Ok(())
}

#[test]
fn a_store_that_is_cut_short_is_left_to_its_reader(rt: HostRuntime) -> Result<(), Fail> {
    two_records(&rt, "short")?;
    let bytes = fs::read(&rt, "short.dat")?;
    let whole = bytes.as_slice();
    fs::write(&rt, "short.dat", &whole[..whole.len().min(13)])?;
    for how in [StoreUse::Reads, StoreUse::Begins, StoreUse::GoesOn] {
        expect(&rt, store(&rt, "short", how)?.len()?, 13);
    }
    Ok(())
}

// The file of sums that begins with these bytes, behind who reads the store, and behind who goes on with it.
fn sums_behind(rt: &HostRuntime, left: &[u8]) -> io::Result<(Vec<u8>, Vec<u8>)> {
    fs::write(rt, "lacking.sum", left)?;
    store(rt, "lacking", StoreUse::Reads)?.len()?;
    let read = fs::read(rt, "lacking.sum")?;
    store(rt, "lacking", StoreUse::GoesOn)?.len()?;
    Ok((read, fs::read(rt, "lacking.sum")?))
}

#[test]
fn sums_that_are_not_there_are_made_anew_by_who_goes_on(rt: HostRuntime) -> Result<(), Fail> {
    two_records(&rt, "lacking")?;
    let sums = fs::read(&rt, "lacking.sum")?;
    for count in [0, 5, 40, 64, 95] {
        let left = &sums.as_slice()[..sums.len().min(count)];
        let (read, remade) = sums_behind(&rt, left)?;
        expect(&rt, read.as_slice(), left);
        expect(&rt, remade.as_slice(), sums.as_slice());
    }
    Ok(())
}

#[test]
fn a_build_that_goes_on_without_an_identity_takes_folders_without_a_name(
    rt: HostRuntime,
) -> Result<(), Fail> {
    two_records(&rt, "older")?;
    fs::remove_file(&rt, "older.lock")?;
    expect(&rt, store(&rt, "older", StoreUse::GoesOn)?.len()?, 15);
    let identity = Identity::read(&rt, "older.lock")?.ok_or("an identity")?;
    expect(&rt, identity.takes_unnamed, true);
    expect(&rt, store(&rt, "older", StoreUse::GoesOn)?.len()?, 15);
    expect(&rt, Identity::read(&rt, "older.lock")?, Some(identity));
    Ok(())
}

#[test]
fn what_is_no_store_is_refused(rt: HostRuntime) -> Result<(), Fail> {
    for text in ["a text", "\x01\0", "\0\0\0\0\0\0\0x"] {
        put(&rt, "none.dat", text)?;
        for how in [StoreUse::Reads, StoreUse::Begins, StoreUse::GoesOn] {
            assert!(rt; store(&rt, "none", how)?.len().is_err(), "{text:?}");
        }
        expect_file(&rt, "none.dat", text.as_bytes())?;
        expect(&rt, fs::exists(&rt, "none.lock")?, false);
    }
    Ok(())
}

#[test]
fn a_first_write_that_was_cut_short_is_an_empty_store(rt: HostRuntime) -> Result<(), Fail> {
    for text in [
        "",
        "\0",
        "\x01",
        "\0\0\0",
        "\0\0\0\0\x03ab",
        "\0\0\0\0\x03abc\0",
        "\0\0\0\0\0\0\0\0\0",
    ] {
        put(&rt, "cut.dat", text)?;
        for how in [StoreUse::Reads, StoreUse::Begins, StoreUse::GoesOn] {
            expect(&rt, store(&rt, "cut", how)?.len()?, text.len() as u64);
        }
    }
    Ok(())
}
