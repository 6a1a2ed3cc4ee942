// Records that are read alone, from outside their folder.
use crate::folders::{add, enter_folder, file_is, keep, remove_folder};
use crate::records::kept_are;
use edge_io::{EdgeRefusal, Keeper};
use fabric_edge::{FolderKeeper, LockFiles, RecordReader};
use std::alloc::Global;
use std::fs::Permissions;
use std::io::ErrorKind;
use std::os::unix::fs::PermissionsExt;
use std::process::Abort;
use std::test::Fail;
use std::{env, fs};

/// A folder in which the process is not has these records of an actor, as far as they are whole.
fn reads(rt: &(impl LockFiles + Abort), alloc: Global, actor: u16, want: &[u8]) {
    let mut reader = RecordReader::open(rt, alloc, "ring/node", actor).expect(rt, "a folder");
    kept_are(rt, alloc, &mut reader, actor, Some(want));
    kept_are(rt, alloc, &mut reader, actor, Some(want));
    kept_are(rt, alloc, &mut reader, 9, None);
    assert_eq!(rt;
        reader.append_synced(actor, b"lost"),
        Err(EdgeRefusal::Failed)
    );
}

/// Makes a folder, and moves into it.
fn enter_ring(rt: &HostRuntime) -> Result<(), Fail> {
    enter_folder(rt)?;
    fs::create_dir_all(rt, "ring/node")?;
    env::set_current_dir(rt, "ring/node")?;
    Ok(())
}

#[test]
fn a_reader_of_another_folder_writes_nothing(rt: HostRuntime) -> Result<(), Fail> {
    enter_ring(&rt)?;
    keep(&rt, rt.alloc(), 1, &[b"one", b""]);
    add(&rt, "kept/1", b"\0\x05t");
    fs::set_permissions(&rt, "kept/1", Permissions::from_mode(0o400))?;
    env::set_current_dir(&rt, "../..")?;
    reads(&rt, rt.alloc(), 1, b"one;;");
    file_is(&rt, "ring/node/kept/1", b"\0\x03one\0\0\0\x05t");
    reads(&rt, rt.alloc(), 2, b"");
    assert!(rt; !fs::exists(&rt, "ring/node/kept/2")?);
    fs::remove_dir_all(&rt, "ring/node/kept")?;
    reads(&rt, rt.alloc(), 1, b"");
    assert!(rt; !fs::exists(&rt, "ring/node/kept")?);
    remove_folder(&rt)
}

#[test]
fn a_reader_leaves_out_a_folder_that_a_process_has(rt: HostRuntime) -> Result<(), Fail> {
    enter_ring(&rt)?;
    let mut keeper = FolderKeeper::new(&rt, rt.alloc());
    assert_eq!(rt; keeper.append_synced(1, b"one"), Ok(()));
    let refused = RecordReader::open(&rt, rt.alloc(), ".", 1).err();
    assert_eq!(rt;
        refused.map(|error| error.kind()),
        Some(ErrorKind::WouldBlock)
    );
    assert_eq!(rt; keeper.append_synced(1, b"two"), Ok(()));
    drop(keeper);
    let mut reader = RecordReader::open(&rt, rt.alloc(), ".", 1)?;
    kept_are(&rt, rt.alloc(), &mut reader, 1, Some(b"one;two;"));
    let mut second = FolderKeeper::new(&rt, rt.alloc());
    assert_eq!(rt; second.append_synced(1, b"lost"), Err(EdgeRefusal::Failed));
    drop(reader);
    assert_eq!(rt; second.append_synced(1, b"three"), Ok(()));
    remove_folder(&rt)
}

#[test]
fn what_is_no_file_is_not_taken_for_none(rt: HostRuntime) -> Result<(), Fail> {
    enter_ring(&rt)?;
    fs::create_dir_all(&rt, "kept/1")?;
    let refused = RecordReader::open(&rt, rt.alloc(), ".", 1).err();
    assert_eq!(rt;
        refused.map(|error| error.kind()),
        Some(ErrorKind::InvalidInput)
    );
    remove_folder(&rt)
}
