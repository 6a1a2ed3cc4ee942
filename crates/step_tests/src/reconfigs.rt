// Answers that end a reconfiguration: an arbitrator that keeps an epoch which is not below its own, and votes of which
// none can get a majority.
use crate::outboxes::outbox;
use fabric_terms::{Body, Message, Outbox};
use reconfig_phases::{Progress, Reconfig, Step};
use replica_place::NodeLoad;
use ring_points::{Config, Epoch, Members, Who};
use unit_rules::Kind;

/// What an arbitrator answers to 1.1 about epoch 0.5 of partition 1.
#[derive(Clone, Copy)]
enum ArbiterAnswer {
    Prepared,
    /// It has prepared this configuration number.
    NoPrepare(u32),
    /// It voted for this node alone.
    Voted(u16),
}

fn epoch(configuration: u32) -> Epoch {
    Epoch {
        data_loss: 0,
        configuration,
    }
}

fn alone(node: u16) -> Config {
    let mut members = Members::new();
    members.push(node);
    Config {
        partition: 1,
        epoch: epoch(5),
        primary: node,
        members,
    }
}

fn body(answer: ArbiterAnswer) -> Body {
    match answer {
        ArbiterAnswer::Prepared => Body::Prepared {
            partition: 1,
            epoch: epoch(5),
            done: None,
        },
        ArbiterAnswer::NoPrepare(kept) => Body::NoPrepare {
            partition: 1,
            epoch: epoch(5),
            kept: epoch(kept),
        },
        ArbiterAnswer::Voted(node) => Body::Voted {
            partition: 1,
            epoch: epoch(5),
            kept: alone(node),
        },
    }
}

/// The one node that can take a replica.
const NODES: [NodeLoad; 1] = [NodeLoad {
    node: 1,
    domain: 1,
    up: true,
    load: 0,
}];

/// The configuration number that ends the reconfiguration, if one does.
fn answered(
    reconfig: &mut Reconfig,
    arbitrator: u16,
    answer: ArbiterAnswer,
    out: &mut Outbox,
) -> Option<u32> {
    let message = Message {
        from: Who {
            actor: arbitrator,
            instance: 0,
        },
        to: Who {
            actor: 1,
            instance: 1,
        },
        body: body(answer),
    };
    out.clear();
    match reconfig.answer(&message, &NODES, out) {
        Progress::Superseded(kept) => Some(kept.configuration),
        _ => None,
    }
}

/// 1.1 creates partition 1 with one replica in epoch 0.5, by three arbitrators.
fn begun(out: &mut Outbox) -> Reconfig {
    let me = Who {
        actor: 1,
        instance: 1,
    };
    out.clear();
    Reconfig::begin(1, epoch(5), Kind::Create(1), me, 3, out)
}

/// Which configuration number ends it after these answers, if one does.
fn ended(answers: &[(u16, ArbiterAnswer)], out: &mut Outbox) -> Option<u32> {
    let mut reconfig = begun(out);
    let mut last = None;
    for (arbitrator, answer) in answers {
        last = answered(&mut reconfig, *arbitrator, *answer, out);
    }
    last
}

/// The answers, each with its arbitrator, and the configuration number that ends the reconfiguration.
type Row = (&'static [(u16, ArbiterAnswer)], Option<u32>);

const ROWS: [Row; 6] = [
    (&[(32769, ArbiterAnswer::NoPrepare(4))], None),
    (&[(32769, ArbiterAnswer::NoPrepare(5))], Some(5)),
    (&[(32769, ArbiterAnswer::NoPrepare(6))], Some(6)),
    (
        &[
            (32769, ArbiterAnswer::Prepared),
            (32770, ArbiterAnswer::Prepared),
            (32769, ArbiterAnswer::Voted(1)),
            (32770, ArbiterAnswer::Voted(2)),
        ],
        None,
    ),
    (
        &[
            (32769, ArbiterAnswer::Prepared),
            (32770, ArbiterAnswer::Prepared),
            (32769, ArbiterAnswer::Voted(1)),
            (32770, ArbiterAnswer::Voted(2)),
            (32770, ArbiterAnswer::Voted(3)),
        ],
        None,
    ),
    (
        &[
            (32769, ArbiterAnswer::Prepared),
            (32770, ArbiterAnswer::Prepared),
            (32769, ArbiterAnswer::Voted(1)),
            (32770, ArbiterAnswer::Voted(2)),
            (32771, ArbiterAnswer::Voted(3)),
        ],
        Some(5),
    ),
];

#[test]
fn a_greater_epoch_or_split_votes_end_it(rt: HostRuntime) {
    let mut out = outbox(&rt, rt.alloc());
    for (row, (answers, wanted)) in ROWS.iter().enumerate() {
        assert_eq!(rt; ended(answers, &mut out), *wanted, "in row {row}, from 0");
    }
}

/// The same answer to a reconfiguration that is taken by value.
#[test]
fn the_own_epoch_supersedes(rt: HostRuntime) {
    let kept = Message {
        from: Who {
            actor: 32769,
            instance: 0,
        },
        to: Who {
            actor: 1,
            instance: 1,
        },
        body: body(ArbiterAnswer::NoPrepare(5)),
    };
    let mut out = outbox(&rt, rt.alloc());
    let reconfig = begun(&mut out);
    out.clear();
    let step = reconfig.on(&kept, &NODES, &mut out);
    assert!(rt;
        matches!(
            step,
            Step::Superseded(Epoch {
                data_loss: 0,
                configuration: 5
            })
        )
    );
}
