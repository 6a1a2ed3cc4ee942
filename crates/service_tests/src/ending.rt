//! Which report ends which open answer: the rows of the documented table, one by one.
use fabric_terms::{Body, Command, Message, Payload, Reason, Report, Verb};
use open_answers::{Answer, Asker, Ended, EndedAnswer, Ending, OpenAnswers};
use ring_points::{Epoch, Point, Who};
use ring_rules::Input;
use std::alloc::{AllocError, Global};
use std::process::Abort;

const LEASE: u64 = 600;

const E: Epoch = Epoch {
    data_loss: 0,
    configuration: 3,
};

const ABOVE: Epoch = Epoch {
    data_loss: 1,
    configuration: 0,
};

const WHO: Who = Who {
    actor: 2,
    instance: 1,
};

const ASKER: Asker = Asker { client: 1, tag: 7 };

/// A step that takes a Prepared of this partition.
fn prepared(partition: u16) -> Input {
    Input::Frame(Message {
        from: WHO,
        to: WHO,
        body: Body::Prepared {
            partition,
            epoch: E,
            done: None,
        },
    })
}

/// What becomes of a command: the answer in its own step, and how a later step ends it.
fn outcome(
    alloc: Global,
    command: &Command,
    own: &[Report],
    input: &Input,
    later: &[Report],
) -> Result<(Answer, Option<Ending>), AllocError> {
    let mut answers = OpenAnswers::new(alloc, LEASE)?;
    let mut ended = Ended::new(alloc)?;
    if answers.is_full() {
        return Ok((Answer::Done, None));
    }
    let answer = answers.ask(ASKER, command, own, 0);
    answers.hear(input, later, &mut ended);
    let ending = match ended.as_slice() {
        [one] => Some(one.ending),
        _ => None,
    };
    Ok((answer, ending))
}

/// The same, where memory is not short.
fn becomes(
    rt: &impl Abort,
    alloc: Global,
    command: &Command,
    own: &[Report],
    input: &Input,
    later: &[Report],
) -> (Answer, Option<Ending>) {
    outcome(alloc, command, own, input, later).expect(rt, "memory")
}

#[test]
fn commands_of_the_ring_end_with_their_step(rt: HostRuntime) {
    for command in [
        Command::Link(2),
        Command::Part(2),
        Command::GiveAll(2),
        Command::Join(2),
    ] {
        let end = becomes(
            &rt,
            rt.alloc(),
            &command,
            &[],
            &Input::Fire,
            &[Report::Stopped],
        );
        assert_eq!(rt; end, (Answer::Done, None));
    }
}

#[test]
fn a_search_ends_by_its_point(rt: HostRuntime) {
    let find = Command::Find(Point(255));
    let others = [Report::Found(Point(254), WHO), Report::Nowhere(Point(0))];
    let end = becomes(&rt, rt.alloc(), &find, &others, &Input::Fire, &others);
    assert_eq!(rt; end, (Answer::Open, None));
    let found = [
        Report::Found(Point(254), WHO),
        Report::Found(Point(255), WHO),
    ];
    let end = becomes(&rt, rt.alloc(), &find, &[], &Input::Fire, &found);
    assert_eq!(rt; end, (Answer::Open, Some(Ending::Told(1))));
    let nowhere = [Report::Nowhere(Point(255))];
    let end = becomes(&rt, rt.alloc(), &find, &[], &Input::Fire, &nowhere);
    assert_eq!(rt; end, (Answer::Open, Some(Ending::Told(0))));
    let end = becomes(&rt, rt.alloc(), &find, &found, &Input::Fire, &nowhere);
    assert_eq!(rt; end, (Answer::Done, None));
}

/// What becomes of a heal of partition 7.
fn healed(rt: &impl Abort, alloc: Global, input: &Input, later: &[Report]) -> Option<Ending> {
    becomes(rt, alloc, &Command::Heal(7, 3), &[], input, later).1
}

#[test]
fn a_reconfiguration_ends_by_its_partition(rt: HostRuntime) {
    let no_unit = [Report::Refused(Verb::Heal, Reason::NoUnit)];
    let end = becomes(
        &rt,
        rt.alloc(),
        &Command::Heal(7, 3),
        &no_unit,
        &Input::Fire,
        &[],
    );
    assert_eq!(rt; end, (Answer::Done, None));
    assert_eq!(rt; healed(&rt, rt.alloc(), &prepared(8), &no_unit), None);
    assert_eq!(rt; healed(&rt, rt.alloc(), &Input::Fire, &no_unit), None);
    assert_eq!(rt;
        healed(&rt, rt.alloc(), &prepared(7), &no_unit),
        Some(Ending::Told(0))
    );
    let not_member = [Report::Refused(Verb::Swap, Reason::NotMember)];
    assert_eq!(rt; healed(&rt, rt.alloc(), &prepared(7), &not_member), None);
    let done = [Report::Configured(8, E), Report::Configured(7, E)];
    assert_eq!(rt;
        healed(&rt, rt.alloc(), &Input::Fire, &done),
        Some(Ending::Told(1))
    );
    let given_way = [Report::Superseded(7, ABOVE)];
    assert_eq!(rt;
        healed(&rt, rt.alloc(), &Input::Fire, &given_way),
        Some(Ending::Told(0))
    );
}

/// What becomes of a write to partition 7, which accepted it as its entry 5.
fn written(rt: &impl Abort, alloc: Global, later: &[Report]) -> Option<Ending> {
    let write = Command::Write(7, Payload::from_slice(b"a"));
    becomes(
        rt,
        alloc,
        &write,
        &[Report::Accepted(7, E, 5)],
        &Input::Fire,
        later,
    )
    .1
}

#[test]
fn a_write_ends_by_its_entry(rt: HostRuntime) {
    assert_eq!(rt;
        written(&rt, rt.alloc(), &[Report::Committed(7, E, 4)]),
        None
    );
    assert_eq!(rt;
        written(&rt, rt.alloc(), &[Report::Committed(8, E, 5)]),
        None
    );
    assert_eq!(rt;
        written(&rt, rt.alloc(), &[Report::Committed(7, ABOVE, 5)]),
        None
    );
    assert_eq!(rt;
        written(&rt, rt.alloc(), &[Report::Committed(7, E, 5)]),
        Some(Ending::Told(0))
    );
    assert_eq!(rt;
        written(&rt, rt.alloc(), &[Report::Committed(7, E, 6)]),
        Some(Ending::Told(0))
    );
    assert_eq!(rt; written(&rt, rt.alloc(), &[Report::Promised(7, E)]), None);
    assert_eq!(rt;
        written(&rt, rt.alloc(), &[Report::Promised(7, ABOVE)]),
        Some(Ending::Unknown)
    );
    let write = Command::Write(7, Payload::from_slice(b"a"));
    let refused = [Report::Refused(Verb::Write, Reason::NotPrimary)];
    let end = becomes(&rt, rt.alloc(), &write, &refused, &Input::Fire, &[]);
    assert_eq!(rt; end, (Answer::Done, None));
    let at_once = [Report::Accepted(7, E, 5), Report::Committed(7, E, 5)];
    let end = becomes(&rt, rt.alloc(), &write, &at_once, &Input::Fire, &[]);
    assert_eq!(rt; end, (Answer::Done, None));
}

/// Three answers that are open, of two clients: a search until 600, and two reconfigurations until 60,001 and 60,002.
fn three(alloc: Global) -> Result<OpenAnswers, AllocError> {
    let mut answers = OpenAnswers::new(alloc, LEASE)?;
    let commands = [
        Command::Find(Point(1)),
        Command::Heal(7, 3),
        Command::Lose(8, 2),
    ];
    for (now, command) in commands.iter().enumerate() {
        if !answers.is_full() {
            let client = 1 + now as u32 % 2;
            answers.ask(Asker { client, tag: 7 }, command, &[], now as u64);
        }
    }
    Ok(answers)
}

fn end_of(client: u32, ending: Ending) -> EndedAnswer {
    EndedAnswer {
        asker: Asker { client, tag: 7 },
        ending,
    }
}

#[test]
fn answers_end_late_in_the_order_of_asking(rt: HostRuntime) {
    let mut answers = three(rt.alloc()).expect(&rt, "memory");
    let mut ended = Ended::new(rt.alloc()).expect(&rt, "memory");
    assert_eq!(rt; answers.due(), Some(600));
    answers.pass(599, &mut ended);
    assert!(rt; ended.as_slice().is_empty());
    answers.pass(600, &mut ended);
    assert_eq!(rt; ended.as_slice(), [end_of(1, Ending::Late)].as_slice());
    assert_eq!(rt; answers.due(), Some(60_001));
    answers.pass(60_002, &mut ended);
    assert_eq!(rt;
        ended.as_slice(),
        [end_of(2, Ending::Late), end_of(1, Ending::Late)].as_slice()
    );
    assert_eq!(rt; (answers.len(), answers.due()), (0, None));
}

#[test]
fn all_answers_end_with_their_instance(rt: HostRuntime) {
    let mut answers = three(rt.alloc()).expect(&rt, "memory");
    let mut ended = Ended::new(rt.alloc()).expect(&rt, "memory");
    answers.drop_client(2);
    answers.close(&mut ended);
    assert_eq!(rt;
        ended.as_slice(),
        [end_of(1, Ending::Unknown), end_of(1, Ending::Unknown)].as_slice()
    );
    assert_eq!(rt; answers.len(), 0);
}

#[test]
fn there_are_at_most_256(rt: HostRuntime) {
    let mut answers = OpenAnswers::new(rt.alloc(), LEASE).expect(&rt, "memory");
    let mut taken: u64 = 0;
    for now in 0..300 {
        if !answers.is_full() {
            answers.ask(ASKER, &Command::Find(Point(now)), &[], now);
            taken = now;
        }
    }
    assert_eq!(rt; (answers.len(), taken), (256, 255));
}
