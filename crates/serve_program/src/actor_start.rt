use crate::events::Events;
use edge_io::EdgeRefusal;
use ring_points::Who;
use serve_edge::{HeldActor, StartFault, hold_actor};
use serve_top::{End, FolderFault, Synced, judge_actor};
use service_file::{ActorFile, Again, again_line, began_line, head_line};
use std::alloc::Global;

/// The file `actor`, which notes once that a record of the actor was synced, and which instance begins the ring anew.
#[derive(Drop)]
pub struct NotedActor<'a> {
    alloc: Global,
    events: &'a Events<'a>,
    actor: u16,
    held: HeldActor<HostRuntime>,
    has_begun: bool,
}

/// The file `actor` of the current folder, and what it says. A file without a line gets its first line.
pub fn take_actor<'a>(
    rt: &HostRuntime,
    events: &'a Events<'a>,
    actor: u16,
    checksum: &[u8; 32],
) -> Result<(NotedActor<'a>, ActorFile), End> {
    let mut held = hold_actor(rt)?;
    let mut bytes = held.read(rt.alloc())?;
    if bytes.is_empty() {
        let line = head_line(rt.alloc(), actor, checksum)?;
        held.append(&line)?;
        bytes = line;
    }
    let file = judge_actor(rt.alloc(), &bytes, actor, checksum)?;
    let has_begun = file.has_begun;
    let noted = NotedActor {
        alloc: rt.alloc(),
        events,
        actor,
        held,
        has_begun,
    };
    Ok((noted, file))
}

impl NotedActor<'_> {
    /// Appends a line, and waits until it is kept for good.
    fn note(&mut self, line: &[u8]) -> Result<(), EdgeRefusal> {
        match self.held.append(line) {
            Ok(()) => Ok(()),
            Err(StartFault::OutOfMemory) => Err(EdgeRefusal::OutOfMemory),
            Err(_) => Err(EdgeRefusal::Failed),
        }
    }
}

impl Synced for NotedActor<'_> {
    fn note_begun(&mut self) -> Result<(), EdgeRefusal> {
        if self.has_begun {
            return Ok(());
        }
        self.note(began_line())?;
        self.has_begun = true;
        Ok(())
    }

    fn note_again(&mut self, again: Again) -> Result<(), EdgeRefusal> {
        match again_line(self.alloc, again) {
            Ok(line) => self.note(&line),
            Err(_) => Err(EdgeRefusal::OutOfMemory),
        }
    }

    fn tell_begin(&self, instance: u32) {
        self.events.begin(Who {
            actor: self.actor,
            instance,
        });
    }
}
