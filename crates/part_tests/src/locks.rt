use crate::disks::Disk;
use crate::folders::{add, enter_folder, file_is, keep, remove_folder};
use crate::notes::Notes;
use crate::records::kept_are;
use edge_io::{EdgeRefusal, Keeper};
use fabric_edge::{FolderKeeper, LockFiles};
use std::alloc::Global;
use std::cell::Cell;
use std::process::Abort;
use std::rt::Files;
use std::test::Fail;

#[test]
fn a_second_process_reads_the_records_and_appends_none(rt: HostRuntime) -> Result<(), Fail> {
    enter_folder(&rt)?;
    keep(&rt, rt.alloc(), 1, &[b"boot"]);
    let mut first = FolderKeeper::new(&rt, rt.alloc());
    let mut second = FolderKeeper::new(&rt, rt.alloc());
    kept_are(&rt, rt.alloc(), &mut first, 1, Some(b"boot;"));
    kept_are(&rt, rt.alloc(), &mut second, 1, Some(b"boot;"));
    assert_eq!(rt; second.append_synced(1, b"lost"), Err(EdgeRefusal::Failed));
    assert_eq!(rt; first.append_synced(1, b"mine"), Ok(()));
    assert_eq!(rt; second.append_synced(1, b"lost"), Err(EdgeRefusal::Failed));
    assert_eq!(rt; second.append_synced(2, b"other"), Ok(()));
    file_is(&rt, "kept/1", b"\0\x04boot\0\x04mine");
    remove_folder(&rt)
}

// What the other appended is not in the list that this one read.
#[test]
fn a_process_that_was_refused_reads_before_it_appends(rt: HostRuntime) -> Result<(), Fail> {
    enter_folder(&rt)?;
    let mut first = FolderKeeper::new(&rt, rt.alloc());
    assert_eq!(rt; first.append_synced(1, b"one"), Ok(()));
    let mut second = FolderKeeper::new(&rt, rt.alloc());
    kept_are(&rt, rt.alloc(), &mut second, 1, Some(b"one;"));
    assert_eq!(rt; first.append_synced(1, b"two"), Ok(()));
    drop(first);
    assert_eq!(rt; second.append_synced(1, b"lost"), Err(EdgeRefusal::Failed));
    kept_are(&rt, rt.alloc(), &mut second, 1, Some(b"one;two;"));
    assert_eq!(rt; second.append_synced(1, b"three"), Ok(()));
    file_is(&rt, "kept/1", b"\0\x03one\0\x03two\0\x05three");
    remove_folder(&rt)
}

#[test]
fn a_file_that_was_missing_may_have_no_record_at_the_first_append(
    rt: HostRuntime,
) -> Result<(), Fail> {
    enter_folder(&rt)?;
    let mut second = FolderKeeper::new(&rt, rt.alloc());
    kept_are(&rt, rt.alloc(), &mut second, 1, Some(b""));
    keep(&rt, rt.alloc(), 1, &[b"one"]);
    assert_eq!(rt; second.append_synced(1, b"lost"), Err(EdgeRefusal::Failed));
    file_is(&rt, "kept/1", b"\0\x03one");
    kept_are(&rt, rt.alloc(), &mut second, 1, Some(b"one;"));
    assert_eq!(rt; second.append_synced(1, b"two"), Ok(()));
    file_is(&rt, "kept/1", b"\0\x03one\0\x03two");
    remove_folder(&rt)
}

/// Before the first record is appended, the file, the name of the file and that of its folder are synced.
fn syncs_in_order<R: LockFiles>(rt: &(impl Files + Abort), alloc: Global, notes: &Notes, disk: &R) {
    let [file, folder, above] = ["sync kept/1", "sync kept", "sync ."];
    let [write, data] = ["write kept/1", "sync the data of kept/1"];
    let mut keeper = FolderKeeper::new(disk, alloc);
    assert_eq!(rt; keeper.append_synced(1, b"one"), Ok(()));
    notes.are(rt, &["lock kept/1", file, folder, above, write, data]);
    assert_eq!(rt; keeper.append_synced(1, b"two"), Ok(()));
    notes.are(rt, &[write, data]);
    drop(keeper);
    add(rt, "kept/1", b"\0\x05t");
    let mut keeper = FolderKeeper::new(disk, alloc);
    kept_are(rt, alloc, &mut keeper, 1, Some(b"one;two;"));
    notes.are(rt, &["lock kept/1"]);
    assert_eq!(rt; keeper.append_synced(1, b"three"), Ok(()));
    notes.are(rt, &["cut kept/1", file, folder, above, write, data]);
}

#[test]
fn a_file_is_synced_and_then_its_folders(rt: HostRuntime) -> Result<(), Fail> {
    enter_folder(&rt)?;
    let notes = Notes::new(rt.alloc());
    let disk = Disk {
        rt: &rt,
        notes: &notes,
        breaks: Cell::new(None),
    };
    syncs_in_order(&rt, rt.alloc(), &notes, &disk);
    remove_folder(&rt)
}

/// Records that are appended are written, and then synced by one call. Where nothing is pending there is none.
fn syncs_once<R: LockFiles>(rt: &impl Abort, alloc: Global, notes: &Notes, disk: &R) {
    let [file, folder, above] = ["sync kept/1", "sync kept", "sync ."];
    let [write, data] = ["write kept/1", "sync the data of kept/1"];
    let mut keeper = FolderKeeper::new(disk, alloc);
    assert_eq!(rt; keeper.append(1, b"one"), Ok(()));
    notes.are(rt, &["lock kept/1", file, folder, above, write]);
    assert_eq!(rt; keeper.append(1, b"two"), Ok(()));
    assert_eq!(rt; keeper.sync(1), Ok(()));
    notes.are(rt, &[write, data]);
    assert_eq!(rt; keeper.sync(1), Ok(()));
    notes.are(rt, &[]);
    kept_are(rt, alloc, &mut keeper, 1, Some(b"one;two;"));
}

#[test]
fn many_records_have_one_sync(rt: HostRuntime) -> Result<(), Fail> {
    enter_folder(&rt)?;
    let notes = Notes::new(rt.alloc());
    let disk = Disk {
        rt: &rt,
        notes: &notes,
        breaks: Cell::new(None),
    };
    syncs_once(&rt, rt.alloc(), &notes, &disk);
    remove_folder(&rt)
}
