use crate::arbiters::questions::{accusation, arbitrator, node};
use arbiter_core::{Answer, Arbiter, ArbiterError, MAX_ARBITER_ENTRIES};
use ring_points::Who;
use std::process::Abort;

// What becomes of a first accusation of this instance of node 2.
fn accused(arbiter: &mut Arbiter, instance: u32) -> &'static str {
    let victim = Who { actor: 2, instance };
    match &arbiter.on_frame(&accusation(node(1), arbitrator(1), victim)) {
        Ok(Answer::Reply { kept: Some(_), .. }) => "recorded",
        Ok(Answer::Reply { kept: None, .. }) => "answered",
        Ok(Answer::Nothing) => "not answered",
        Err(ArbiterError::TableFull) => "full",
        Err(ArbiterError::OutOfMemory) => "no memory",
    }
}

// Fills the arbitrator with so many entries. The next accusation is refused, and what is recorded is still answered.
fn fill(rt: &impl Abort, arbiter: &mut Arbiter, most: u32) {
    for instance in 0..most {
        assert_eq!(rt; accused(arbiter, instance), "recorded");
    }
    assert_eq!(rt; accused(arbiter, most), "full");
    assert_eq!(rt; accused(arbiter, 0), "answered");
}

#[test]
fn is_full_at_its_last_entry(rt: HostRuntime) {
    let mut arbiter = Arbiter::new(rt.alloc(), 1);
    fill(&rt, &mut arbiter, MAX_ARBITER_ENTRIES as u32);
}
