// An arbitrator that starts again from its records.

use crate::arbiters::questions::node;
use crate::arbiters::registers::{Ask, answered, config, epoch};
use crate::arbiters::rounds::claimed;
use arbiter_core::{Arbiter, Record};
use std::alloc::Global;
use std::process::Abort;

// The arbitrator that recorded that 2.1 accused 1.1 and 3.1 claims round 2 about it, and of partition 1 that epoch 5
// was prepared for 1.1, its vote, and its done configuration.
fn restored(rt: &impl Abort, alloc: Global) -> Arbiter {
    let records = [
        Record::AccusedBy {
            victim: node(1),
            first: node(2),
        },
        Record::ClaimedBy {
            victim: node(1),
            round: 2,
            claimer: node(3),
        },
        Record::PreparedBy {
            partition: 1,
            epoch: epoch(5),
            preparer: node(1),
        },
        Record::VotedFor { config: config(5) },
        Record::DoneFor { config: config(5) },
    ];
    match Arbiter::restore(alloc, 1, &records) {
        Ok(arbiter) => arbiter,
        Err(_) => panic!(rt; "no memory"),
    }
}

// Who accused and who claims, so that nothing is recorded of one who claims again.
fn knows_rounds(rt: &impl Abort, arbiter: &mut Arbiter) {
    assert_eq!(rt; arbiter.first_accuser(node(1)), Some(node(2)));
    assert_eq!(rt; claimed(rt, arbiter, 2, 2), ((2, 3), None));
}

// Nothing is recorded of an epoch that is prepared, voted for and done. A greater one is told what is done.
fn knows_its_register(rt: &impl Abort, arbiter: &mut Arbiter) {
    for (ask, configuration, wanted) in [
        (Ask::Prepare, 5, (false, ("no prepare", 5))),
        (Ask::Vote, 5, (false, ("voted", 5))),
        (Ask::Done, 5, (false, ("done", 0))),
        (Ask::Prepare, 6, (true, ("prepared", 5))),
    ] {
        let answer = answered(rt, arbiter, 2, ask, configuration);
        assert_eq!(rt; answer, wanted, "at {configuration}");
    }
}

#[test]
fn knows_each_of_its_records(rt: HostRuntime) {
    let mut arbiter = restored(&rt, rt.alloc());
    knows_rounds(&rt, &mut arbiter);
    knows_its_register(&rt, &mut arbiter);
}
