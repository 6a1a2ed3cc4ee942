use fabric_terms::{OutOfMemory, Outbox};
use std::alloc::Global;
use std::process::Abort;

/// An outbox in which nothing is sent yet.
pub(crate) fn outbox(rt: &impl Abort, alloc: Global) -> Outbox {
    match Outbox::new(alloc) {
        Ok(out) => out,
        Err(OutOfMemory) => panic!(rt; "no memory"),
    }
}
