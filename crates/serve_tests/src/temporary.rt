// A folder of this process, which is the current one.
use std::path::PathBuf;
use std::test::Fail;
use std::{env, fs, process};

/// The path of this process's folder.
fn folder(rt: &HostRuntime) -> Result<PathBuf, Fail> {
    let name = format!(in rt.alloc(); "serve_edge_{}", process::id(rt.process()))?;
    Ok(env::temp_dir(rt)?.join(rt.alloc(), name.as_str())?)
}

/// Moves into the folder of this process, which is new.
pub(crate) fn enter(rt: &HostRuntime) -> Result<(), Fail> {
    let folder = folder(rt)?;
    let _ = fs::remove_dir_all(rt, &folder);
    fs::create_dir_all(rt, &folder)?;
    env::set_current_dir(rt, &folder)?;
    Ok(())
}

pub(crate) fn remove(rt: &HostRuntime) -> Result<(), Fail> {
    fs::remove_dir_all(rt, folder(rt)?)?;
    Ok(())
}
