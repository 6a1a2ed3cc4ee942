use crate::disks::{Break, Disk};
use crate::notes::Notes;
use crate::records::kept_are;
use edge_io::{EdgeRefusal, Keeper};
use fabric_edge::{FolderKeeper, LockFiles};
use std::alloc::Global;
use std::cell::Cell;
use std::fs::OpenOptions;
use std::io::Write;
use std::path::PathBuf;
use std::process::Abort;
use std::rt::Files;
use std::test::Fail;
use std::{env, fs, process};

/// The path of this process's folder.
fn folder(rt: &HostRuntime) -> Result<PathBuf, Fail> {
    let name = format!(in rt.alloc(); "fabric_edge_{}", process::id(rt.process()))?;
    Ok(env::temp_dir(rt)?.join(rt.alloc(), name.as_str())?)
}

/// Moves into the folder of this process, which is new.
pub(crate) fn enter_folder(rt: &HostRuntime) -> Result<(), Fail> {
    let folder = folder(rt)?;
    let _ = fs::remove_dir_all(rt, &folder);
    fs::create_dir_all(rt, &folder)?;
    env::set_current_dir(rt, &folder)?;
    Ok(())
}

pub(crate) fn remove_folder(rt: &HostRuntime) -> Result<(), Fail> {
    fs::remove_dir_all(rt, folder(rt)?)?;
    Ok(())
}

/// A keeper that is new finds these records of an actor, each with a semicolon behind it.
pub(crate) fn records_are(rt: &(impl LockFiles + Abort), alloc: Global, actor: u16, want: &[u8]) {
    kept_are(
        rt,
        alloc,
        &mut FolderKeeper::new(rt, alloc),
        actor,
        Some(want),
    );
}

/// A keeper that is new keeps these records of an actor.
pub(crate) fn keep(rt: &(impl LockFiles + Abort), alloc: Global, actor: u16, records: &[&[u8]]) {
    let mut keeper = FolderKeeper::new(rt, alloc);
    for record in records {
        assert_eq!(rt; keeper.append_synced(actor, record), Ok(()));
    }
}

/// Writes these bytes at the end of a file.
pub(crate) fn add(rt: &(impl Files + Abort), path: &str, bytes: &[u8]) {
    let file = OpenOptions::new().append(true).open(rt, path);
    let mut file = file.expect(rt, "an open file");
    file.write_all(bytes).expect(rt, "a write");
}

pub(crate) fn file_is(rt: &(impl Files + Abort + Alloc), path: &str, want: &[u8]) {
    let found = fs::read(rt, path).expect(rt, "a file");
    assert_eq!(rt; found.as_slice(), want);
}

fn is_missing(rt: &(impl Files + Abort), path: &str) {
    assert!(rt; !fs::exists(rt, path).expect(rt, "a folder"), "{path}");
}

/// The records of a first and of a second start.
const STARTS: [&[u8]; 2] = [b"\x01\0\0\0\x01", b"\x01\0\0\0\x02"];

/// The same with their lengths, and as the list that is read.
const STARTS_IN_FILE: &[u8] = b"\0\x05\x01\0\0\0\x01\0\x05\x01\0\0\0\x02";

const STARTS_READ: &[u8] = b"\x01\0\0\0\x01;\x01\0\0\0\x02;";

#[test]
fn records_stand_in_the_file_behind_their_lengths(rt: HostRuntime) -> Result<(), Fail> {
    enter_folder(&rt)?;
    keep(&rt, rt.alloc(), 1, &STARTS);
    file_is(&rt, "kept/1", STARTS_IN_FILE);
    add(&rt, "kept/1", b"\0\x05\x01");
    records_are(&rt, rt.alloc(), 1, STARTS_READ);
    remove_folder(&rt)
}

#[test]
fn a_record_may_have_no_bytes(rt: HostRuntime) -> Result<(), Fail> {
    enter_folder(&rt)?;
    keep(&rt, rt.alloc(), 1, &[b"boot", b""]);
    file_is(&rt, "kept/1", b"\0\x04boot\0\0");
    records_are(&rt, rt.alloc(), 1, b"boot;;");
    remove_folder(&rt)
}

#[test]
fn a_reader_leaves_a_torn_tail_and_a_keeper_cuts_it(rt: HostRuntime) -> Result<(), Fail> {
    enter_folder(&rt)?;
    keep(&rt, rt.alloc(), 1, &[b"boot"]);
    add(&rt, "kept/1", b"\0\x05t");
    records_are(&rt, rt.alloc(), 1, b"boot;");
    file_is(&rt, "kept/1", b"\0\x04boot\0\x05t");
    keep(&rt, rt.alloc(), 1, &[b""]);
    file_is(&rt, "kept/1", b"\0\x04boot\0\0");
    remove_folder(&rt)
}

#[test]
fn a_reader_makes_no_folder_and_no_file(rt: HostRuntime) -> Result<(), Fail> {
    enter_folder(&rt)?;
    records_are(&rt, rt.alloc(), 6, b"");
    is_missing(&rt, "kept");
    keep(&rt, rt.alloc(), 6, &[b"one"]);
    records_are(&rt, rt.alloc(), 7, b"");
    is_missing(&rt, "kept/7");
    remove_folder(&rt)
}

// What another has written behind the keeper's last record stands before its next one.
#[test]
fn a_keeper_goes_on_behind_what_stands_in_the_file(rt: HostRuntime) -> Result<(), Fail> {
    enter_folder(&rt)?;
    let mut keeper = FolderKeeper::new(&rt, rt.alloc());
    assert_eq!(rt; keeper.append_synced(6, b"one"), Ok(()));
    add(&rt, "kept/6", b"\0\x03two");
    assert_eq!(rt; keeper.append_synced(6, b"three"), Ok(()));
    records_are(&rt, rt.alloc(), 6, b"one;two;three;");
    remove_folder(&rt)
}

/// Two records and this torn tail are in the file: a keeper cuts the tail, and its record stands behind the two.
fn is_cut(rt: &(impl LockFiles + Abort + Alloc), alloc: Global, tail: &[u8]) {
    fs::write(rt, "kept/9", b"\0\x03one\0\0").expect(rt, "a write");
    add(rt, "kept/9", tail);
    keep(rt, alloc, 9, &[b"three"]);
    file_is(rt, "kept/9", b"\0\x03one\0\0\0\x05three");
    records_are(rt, alloc, 9, b"one;;three;");
}

#[test]
fn a_torn_tail_of_every_length_is_cut(rt: HostRuntime) -> Result<(), Fail> {
    enter_folder(&rt)?;
    fs::create_dir_all(&rt, "kept")?;
    let torn = b"\0\x04torn";
    for length in 0..=5 {
        is_cut(&rt, rt.alloc(), &torn[..length]);
    }
    remove_folder(&rt)
}

/// No call of the keeper gets at its folder.
fn each_call_fails<K: Keeper>(rt: &impl Abort, keeper: &mut K) {
    let refusal = keeper.records(3).err();
    assert_eq!(rt; refusal, Some(EdgeRefusal::Failed));
    assert_eq!(rt; keeper.append_synced(3, b"lost"), Err(EdgeRefusal::Failed));
}

/// The keeper refuses a record that is too long for the length before it.
fn refuses_too_long<K: Keeper>(rt: &impl Abort, alloc: Global, keeper: &mut K) {
    let too_long = vec![in alloc; 7; 65_536].expect(rt, "memory");
    assert_eq!(rt;
        keeper.append_synced(3, &too_long),
        Err(EdgeRefusal::Failed)
    );
}

#[test]
fn a_folder_that_cannot_be_made_fails_each_call(rt: HostRuntime) -> Result<(), Fail> {
    enter_folder(&rt)?;
    fs::write(&rt, "kept", "no folder")?;
    let mut keeper = FolderKeeper::new(&rt, rt.alloc());
    each_call_fails(&rt, &mut keeper);
    fs::remove_file(&rt, "kept")?;
    assert_eq!(rt; keeper.append_synced(3, b"kept"), Ok(()));
    refuses_too_long(&rt, rt.alloc(), &mut keeper);
    records_are(&rt, rt.alloc(), 3, b"kept;");
    remove_folder(&rt)
}

#[test]
fn a_file_that_cannot_be_read_is_not_taken_for_none(rt: HostRuntime) -> Result<(), Fail> {
    enter_folder(&rt)?;
    fs::create_dir_all(&rt, "kept/3")?;
    each_call_fails(&rt, &mut FolderKeeper::new(&rt, rt.alloc()));
    remove_folder(&rt)
}

/// Of three records that are appended the second fails alone.
fn the_second_fails<R: LockFiles>(rt: &impl Abort, alloc: Global, disk: &R) {
    let mut keeper = FolderKeeper::new(disk, alloc);
    for (record, want) in [
        (b"one".as_slice(), Ok(())),
        (b"two".as_slice(), Err(EdgeRefusal::Failed)),
        (b"three".as_slice(), Ok(())),
    ] {
        assert_eq!(rt; keeper.append_synced(5, record), want);
    }
}

#[test]
fn a_file_that_breaks_keeps_whole_records(rt: HostRuntime) -> Result<(), Fail> {
    enter_folder(&rt)?;
    let without = b"one;three;".as_slice();
    let with = b"one;two;three;".as_slice();
    for (breaks, want) in [
        (Break::Write(0), without),
        (Break::Write(1), without),
        (Break::Write(4), without),
        (Break::Write(5), with),
        (Break::Sync, with),
    ] {
        let notes = Notes::new(rt.alloc());
        let disk = Disk {
            rt: &rt,
            notes: &notes,
            breaks: Cell::new(Some(breaks)),
        };
        the_second_fails(&rt, rt.alloc(), &disk);
        records_are(&rt, rt.alloc(), 5, want);
        fs::remove_file(&rt, "kept/5")?;
    }
    remove_folder(&rt)
}
