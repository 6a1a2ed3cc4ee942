// The steps of a start over files.
ghost use Rattle.std.specs.Prelude.{◌≤◌};

use crate::temporary::{enter, remove};
use serve_edge::{StartFault, bind_door, enter_folder, hold_actor, read_file, read_key};
use std::fs::Permissions;
use std::os::unix::fs::PermissionsExt;
use std::test::Fail;
use std::{env, fs};

/// A file of these bytes with this mode.
fn make(rt: &HostRuntime, path: &str, bytes: &[u8], mode: u32) -> Result<(), Fail> {
    fs::write(rt, path, bytes)?;
    fs::set_permissions(rt, path, Permissions::from_mode(mode))?;
    Ok(())
}

#[test]
fn a_folder_is_made_and_others_may_not_have_it(rt: HostRuntime) -> Result<(), Fail> {
    enter(&rt)?;
    assert_eq!(rt; enter_folder(&rt, "new"), Ok(()));
    env::set_current_dir(&rt, "..")?;
    assert_eq!(rt; enter_folder(&rt, "new"), Ok(()));
    env::set_current_dir(&rt, "..")?;
    fs::set_permissions(&rt, "new", Permissions::from_mode(0o710))?;
    assert_eq!(rt; enter_folder(&rt, "new"), Err(StartFault::FolderOpen));
    env::set_current_dir(&rt, "..")?;
    fs::write(&rt, "file", "")?;
    assert_eq!(rt; enter_folder(&rt, "file"), Err(StartFault::FolderOpen));
    assert_eq!(rt; enter_folder(&rt, "no/such"), Err(StartFault::FolderOpen));
    remove(&rt)
}

#[test]
fn one_process_has_the_actor(rt: HostRuntime) -> Result<(), Fail> {
    enter(&rt)?;
    let mut held = hold_actor(&rt)?;
    assert_eq!(rt; hold_actor(&rt).err(), Some(StartFault::FolderLocked));
    assert_eq!(rt; held.append(b"one\n"), Ok(()));
    assert_eq!(rt; held.append(b"two\n"), Ok(()));
    assert_eq!(rt; held.read(rt.alloc())?.as_slice(), &b"one\ntwo\n"[..]);
    drop(held);
    assert_eq!(rt;
        hold_actor(&rt)?.read(rt.alloc())?.as_slice(),
        &b"one\ntwo\n"[..]
    );
    remove(&rt)
}

#[test]
fn a_torn_line_is_left_out_and_cut_off(rt: HostRuntime) -> Result<(), Fail> {
    enter(&rt)?;
    fs::write(&rt, "actor", "one\ntw")?;
    let mut held = hold_actor(&rt)?;
    assert_eq!(rt; held.read(rt.alloc())?.as_slice(), &b"one\n"[..]);
    assert_eq!(rt; fs::read(&rt, "actor")?.as_slice(), &b"one\ntw"[..]);
    assert_eq!(rt; held.append(b"two\n"), Ok(()));
    assert_eq!(rt; fs::read(&rt, "actor")?.as_slice(), &b"one\ntwo\n"[..]);
    remove(&rt)
}

#[test]
fn a_configuration_is_a_regular_file(rt: HostRuntime) -> Result<(), Fail> {
    enter(&rt)?;
    let long = vec![in rt.alloc(); b'x'; 200_000]?;
    make(&rt, "long", &long, 0o644)?;
    assert_eq!(rt; read_file(&rt, rt.alloc(), "long")?.len(), 131_075);
    for path in ["missing", ".", "/dev/null"] {
        assert_eq!(rt;
            read_file(&rt, rt.alloc(), path).err(),
            Some(StartFault::Read)
        );
    }
    remove(&rt)
}

/// Whether a key file of so many bytes with this mode is read.
fn is_key(rt: &HostRuntime, count: usize, mode: u32) -> Result<bool, Fail>
    requires { count ≤ 4097 }
{
    let bytes = [7; 4_097];
    let _ = fs::remove_file(rt, "key");
    make(rt, "key", &bytes[..count], mode)?;
    Ok(read_key(rt, rt.alloc(), "key").is_ok())
}

#[test]
fn a_key_is_long_enough_and_closed_to_others(rt: HostRuntime) -> Result<(), Fail> {
    enter(&rt)?;
    assert_eq!(rt; is_key(&rt, 31, 0o600)?, false);
    assert_eq!(rt; is_key(&rt, 32, 0o600)?, true);
    assert_eq!(rt; is_key(&rt, 4_096, 0o400)?, true);
    assert_eq!(rt; is_key(&rt, 4_097, 0o600)?, false);
    assert_eq!(rt; is_key(&rt, 64, 0o640)?, false);
    assert_eq!(rt;
        read_key(&rt, rt.alloc(), "missing").err(),
        Some(StartFault::Key)
    );
    remove(&rt)
}

#[test]
fn a_stale_door_is_replaced_and_nothing_else(rt: HostRuntime) -> Result<(), Fail> {
    enter(&rt)?;
    drop(bind_door(&rt)?);
    let _door = bind_door(&rt)?;
    assert_eq!(rt;
        fs::metadata(&rt, "door")?.permissions().mode() & 0o777,
        0o600
    );
    fs::remove_file(&rt, "door")?;
    fs::write(&rt, "door", "no socket")?;
    assert_eq!(rt; bind_door(&rt).err(), Some(StartFault::Door));
    remove(&rt)
}
