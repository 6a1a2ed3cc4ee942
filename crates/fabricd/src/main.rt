//! The program of the service: it does what its words ask, and ends with that status.
#![tactic(auto)]

use fabric_edge::hold_streams;
use serve_program::run_program;
use std::io;
use std::process::ExitCode;

fn main(rt: HostRuntime) -> io::Result<ExitCode> {
    let _streams = hold_streams(&rt)?;
    Ok(ExitCode::from(run_program(&rt)?))
}
