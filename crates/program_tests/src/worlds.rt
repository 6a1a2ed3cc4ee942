// Schedules of four nodes and three arbitrators: partitions of three replicas, frames that are lost, late and repeated,
// a deposed primary, and two managers. Another program of the same rules computed the expected texts.
mod created;
mod deposed;
mod managers;

use crate::calls::{text_of, written};
use created::{CREATED, FOUR, OF_CREATED};
use deposed::{DEPOSED, OF_DEPOSED};
use managers::{MANAGERS, OF_MANAGERS};
use std::alloc::Global;
use std::process::Abort;
use std::test::Fail;

/// The word, the lines of the source, and the lines of the report.
type World = (
    &'static str,
    &'static [&'static [&'static str]],
    &'static [&'static [&'static str]],
);

const WORLDS: [World; 5] = [
    (
        "replay",
        &[&[FOUR], &CREATED],
        &[&OF_CREATED, &["end 60 47"]],
    ),
    (
        "replay",
        &[&[FOUR], &CREATED, &DEPOSED],
        &[&OF_CREATED, &OF_DEPOSED],
    ),
    (
        "replay",
        &[&[FOUR], &CREATED, &MANAGERS],
        &[&OF_CREATED, &OF_MANAGERS],
    ),
    (
        "writes",
        &[&[FOUR], &CREATED, &DEPOSED],
        &[&[
            "kept 1 0 1 0.1 73657420612031\nkept 1 0 2 0.1 73657420622032",
            "kept 1 0 3 0.1 73657420632033\nkept 1 0 4 0.2 73657420642034\nend 122 106",
        ]],
    ),
    (
        "writes",
        &[&[FOUR], &CREATED, &MANAGERS],
        &[&[
            "kept 1 0 1 0.1 73657420612031\nkept 1 0 2 0.1 73657420622032",
            "kept 1 0 3 0.3 73657420632033\nend 187 212",
        ]],
    ),
];

fn expect_world(rt: &impl Abort, alloc: Global, world: &World) -> Result<(), Fail> {
    let text = text_of(alloc, world.1)?;
    let left = written(alloc, &[world.0], text, Vec::new(alloc), Vec::new(alloc))?;
    let wanted = text_of(alloc, world.2)?;
    left.expect(rt, 0, wanted.as_slice());
    Ok(())
}

#[test]
fn worlds_are_as_another_program_has_them(rt: HostRuntime) -> Result<(), Fail> {
    for world in &WORLDS {
        expect_world(&rt, rt.alloc(), world)?;
    }
    Ok(())
}
