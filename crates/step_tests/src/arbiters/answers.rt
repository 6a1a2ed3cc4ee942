use crate::arbiters::questions::{accusation, arbitrator, node};
use arbiter_core::{Answer, Arbiter};
use fabric_terms::{Body, Message};
use ring_points::Who;
use std::process::Abort;

fn is_unanswered(arbiter: &mut Arbiter, message: &Message) -> bool {
    matches!(&arbiter.on_frame(message), Ok(Answer::Nothing))
}

// Whether an accusation of 2.1 gets no answer.
fn accuses_in_vain(arbiter: &mut Arbiter, accuser: Who, to: Who) -> bool {
    is_unanswered(arbiter, &accusation(accuser, to, node(2)))
}

fn greets_in_vain(arbiter: &mut Arbiter) -> bool {
    let hello = Message {
        from: node(1),
        to: arbitrator(1),
        body: Body::Hello { mine: 1 },
    };
    is_unanswered(arbiter, &hello)
}

// What is no question to this arbitrator, and accuses nobody.
fn leaves_all_unanswered(rt: &impl Abort, arbiter: &mut Arbiter) {
    assert!(rt; accuses_in_vain(arbiter, node(1), arbitrator(2)));
    assert!(rt; accuses_in_vain(arbiter, arbitrator(2), arbitrator(1)));
    assert!(rt; accuses_in_vain(arbiter, node(1), node(3)));
    assert!(rt; greets_in_vain(arbiter));
    assert_eq!(rt; arbiter.first_accuser(node(2)), None);
}

#[test]
fn answers_no_other_message(rt: HostRuntime) {
    let mut arbiter = Arbiter::new(rt.alloc(), 1);
    leaves_all_unanswered(&rt, &mut arbiter);
}
