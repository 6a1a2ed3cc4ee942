//! The program: it makes the real devices, makes the top call and ends with its status.
#![tactic(auto)]

mod forms;

use crate::forms::FORMS;
use fabric_edge::{FolderKeeper, MonoClock, StdinSource, StdoutSink, UdpLinks, hold_streams};
use fabric_top::{Status, fabric_main};
use std::process::ExitCode;
use std::{env, io};

fn main(rt: HostRuntime) -> io::Result<ExitCode> {
    let _streams = hold_streams(&rt)?;
    let mut words = Vec::new(rt.alloc());
    match env::args(&rt) {
        Ok(args) => {
            for word in args.skip(1) {
                words.push(word)?;
            }
        }
        // A word that is no UTF-8 is in none of the program's forms, and neither are no words at all.
        Err(error) if error.kind() == io::ErrorKind::InvalidData => {}
        Err(error) => return Err(error),
    }
    let mut source = StdinSource::new(&rt);
    let mut sink = StdoutSink::new(&rt);
    let mut links = UdpLinks::new(&rt, rt.alloc());
    let mut keeps = FolderKeeper::new(&rt, rt.alloc());
    let mut clock = MonoClock::new(&rt);
    let status = fabric_main(
        rt.alloc(),
        &words,
        &mut source,
        &mut sink,
        &mut links,
        &mut keeps,
        &mut clock,
    );
    // Standard output has the fault line alone. The status stays, whether or not standard error takes the forms.
    if status == Status::Usage {
        let _ = rt.eprint(FORMS);
    }
    Ok(ExitCode::from(status.code()))
}
