// A look at a folder from outside it.
use crate::temporary::{enter, remove};
use edge_io::Keeper;
use serve_edge::{LookFault, enter_folder, hold_actor, see_actor, see_records};
use std::test::Fail;
use std::{env, fs};

/// Why the file `actor` of a folder is not read, if it is not.
fn refusal(rt: &HostRuntime, folder: &str) -> Option<LookFault> {
    see_actor(rt, rt.alloc(), folder).err()
}

#[test]
fn a_look_leaves_a_folder_as_it_is(rt: HostRuntime) -> Result<(), Fail> {
    enter(&rt)?;
    fs::create_dir_all(&rt, "node")?;
    fs::write(&rt, "node/actor", "one\ntw")?;
    let seen = see_actor(&rt, rt.alloc(), "node")?;
    assert_eq!(rt; seen.lines(), &b"one\n"[..]);
    let mut records = see_records(&rt, rt.alloc(), "node", 1)?;
    assert_eq!(rt; records.records(1)?.len(), 0);
    assert_eq!(rt; fs::read(&rt, "node/actor")?.as_slice(), &b"one\ntw"[..]);
    assert!(rt; !fs::exists(&rt, "node/kept")?);
    remove(&rt)
}

#[test]
fn a_look_and_a_process_exclude_each_other(rt: HostRuntime) -> Result<(), Fail> {
    enter(&rt)?;
    enter_folder(&rt, "node")?;
    let mut held = hold_actor(&rt)?;
    assert_eq!(rt; held.append(b"one\n"), Ok(()));
    env::set_current_dir(&rt, "..")?;
    assert_eq!(rt; refusal(&rt, "node"), Some(LookFault::Running));
    drop(held);
    let seen = see_actor(&rt, rt.alloc(), "node")?;
    assert_eq!(rt; seen.lines(), &b"one\n"[..]);
    assert_eq!(rt; refusal(&rt, "node"), Some(LookFault::Running));
    drop(seen);
    assert_eq!(rt; refusal(&rt, "node"), None);
    remove(&rt)
}

#[test]
fn what_is_no_folder_of_an_actor_is_unreadable(rt: HostRuntime) -> Result<(), Fail> {
    enter(&rt)?;
    fs::create_dir_all(&rt, "odd/actor")?;
    fs::create_dir_all(&rt, "odd/kept/1")?;
    fs::create_dir_all(&rt, "long")?;
    let long = vec![in rt.alloc(); b'\n'; 1_048_577]?;
    fs::write(&rt, "long/actor", &long)?;
    for folder in ["", "missing", "odd", "long", "long/actor"] {
        assert_eq!(rt; refusal(&rt, folder), Some(LookFault::Unreadable));
    }
    assert_eq!(rt;
        see_records(&rt, rt.alloc(), "odd", 1).err(),
        Some(LookFault::Unreadable)
    );
    remove(&rt)
}
