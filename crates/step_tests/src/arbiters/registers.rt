ghost use Rattle.std.specs.Prelude.{◌≡◌, ◌∷◌, []};

use crate::arbiters::questions::{arbitrator, node};
use arbiter_core::{Answer, Arbiter};
use fabric_terms::{Body, Message};
use ring_points::{Config, Epoch, Members};
use std::alloc::Global;
use std::process::Abort;

/// What an arbitrator is asked about partition 1.
#[derive(Clone, Copy)]
pub(crate) enum Ask {
    Prepare,
    Vote,
    Done,
}

pub(crate) fn epoch(configuration: u32) -> Epoch
    ensures { result ≡ record { data_loss = 0; configuration = configuration } }
{
    Epoch {
        data_loss: 0,
        configuration,
    }
}

/// A configuration with node 1 alone.
pub(crate) fn config(configuration: u32) -> Config
    ensures { result ≡ record {
      partition = 1;
      epoch = record { data_loss = 0; configuration = configuration };
      primary = 1;
      members = 1 ∷ [];
    } }
{
    let mut members = Members::new();
    members.push(1);
    Config {
        partition: 1,
        epoch: epoch(configuration),
        primary: 1,
        members,
    }
}

fn question(ask: Ask, configuration: u32) -> Body {
    match ask {
        Ask::Prepare => Body::Prepare {
            partition: 1,
            epoch: epoch(configuration),
        },
        Ask::Vote => Body::Vote {
            config: config(configuration),
        },
        Ask::Done => Body::DoneAsk {
            config: config(configuration),
        },
    }
}

// The word of an answer, and the configuration number that it names, or 0.
fn said(rt: &impl Abort, body: &Body) -> (&'static str, u32) {
    match body {
        Body::Prepared { done: None, .. } => ("prepared", 0),
        Body::Prepared {
            done: Some(done),
            ..
        } => ("prepared", done.epoch.configuration),
        Body::NoPrepare { kept, .. } => ("no prepare", kept.configuration),
        Body::Voted { kept, .. } => ("voted", kept.epoch.configuration),
        Body::NoVote { kept, .. } => ("no vote", kept.configuration),
        Body::DoneKept { .. } => ("done", 0),
        _ => panic!(rt; "another answer"),
    }
}

/// Whether something is recorded, and what is answered.
pub(crate) fn answered(
    rt: &impl Abort,
    arbiter: &mut Arbiter,
    asker: u16,
    ask: Ask,
    configuration: u32,
) -> (bool, (&'static str, u32)) {
    let asked = Message {
        from: node(asker),
        to: arbitrator(1),
        body: question(ask, configuration),
    };
    match &arbiter.on_frame(&asked) {
        Ok(Answer::Reply { kept, body, .. }) => (kept.is_some(), said(rt, body)),
        _ => panic!(rt; "no answer"),
    }
}

// An epoch is prepared for one node.
fn prepares(rt: &impl Abort, arbiter: &mut Arbiter) {
    for (asker, wanted) in [
        (1, (true, ("prepared", 0))),
        (1, (false, ("prepared", 0))),
        (2, (false, ("no prepare", 2))),
    ] {
        let answer = answered(rt, arbiter, asker, Ask::Prepare, 2);
        assert_eq!(rt; answer, wanted, "for {asker}");
    }
}

// A vote below what is prepared is refused; what is done is told to who prepares a greater epoch.
fn goes_on(rt: &impl Abort, arbiter: &mut Arbiter) {
    for (asker, ask, configuration, wanted) in [
        (1, Ask::Vote, 1, (false, ("no vote", 2))),
        (1, Ask::Done, 2, (true, ("done", 0))),
        (2, Ask::Prepare, 3, (true, ("prepared", 2))),
    ] {
        let answer = answered(rt, arbiter, asker, ask, configuration);
        assert_eq!(rt; answer, wanted, "for {asker} at {configuration}");
    }
}

#[test]
fn keeps_what_is_prepared_and_done(rt: HostRuntime) {
    let mut arbiter = Arbiter::new(rt.alloc(), 1);
    prepares(&rt, &mut arbiter);
    goes_on(&rt, &mut arbiter);
}

// Two preparers of one epoch: the first has it, and the other is told the epoch.
fn prepared_in_turn(rt: &impl Abort, arbiter: &mut Arbiter, first: u16, second: u16) {
    for (asker, wanted) in [
        (first, (true, ("prepared", 0))),
        (second, (false, ("no prepare", 5))),
    ] {
        let answer = answered(rt, arbiter, asker, Ask::Prepare, 5);
        assert_eq!(rt; answer, wanted, "for {asker}");
    }
}

fn decides(rt: &impl Abort, alloc: Global, first: u16, second: u16) {
    let mut arbiter = Arbiter::new(alloc, 1);
    prepared_in_turn(rt, &mut arbiter, first, second);
}

// Who comes first at two of three arbitrators has a majority.
#[test]
fn prepares_an_epoch_for_one(rt: HostRuntime) {
    for (first, second) in [(1, 2), (1, 2), (2, 1)] {
        decides(&rt, rt.alloc(), first, second);
    }
}
