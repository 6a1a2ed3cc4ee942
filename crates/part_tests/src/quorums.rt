use crate::rows::agree;
use arbiter_quorum::{Tally, Verdict, VoteTally, VoteVerdict, majorities_meet, one_decision};
use ring_points::{Config, Epoch, Members, Ruling, Who};

fn node(actor: u16) -> Who {
    Who { actor, instance: 1 }
}

/// A configuration of one partition and epoch with this primary alone.
fn config(primary: u16) -> Config {
    let mut members = Members::new();
    members.push(primary);
    Config {
        partition: 0,
        epoch: Epoch {
            data_loss: 0,
            configuration: 1,
        },
        primary,
        members,
    }
}

/// What a vote tally says, in a word: the primary that is decided, "open" or "split".
fn said(verdict: VoteVerdict) -> Result<u16, &'static str> {
    match verdict {
        VoteVerdict::Open => Err("open"),
        VoteVerdict::Decided(config) => Ok(config.primary),
        VoteVerdict::Split => Err("split"),
    }
}

/// The verdicts about node 1 of a tally of three, one after each of these rulings, and whether the accuser may be heir
/// then.
fn verdicts(accuser: u16, rulings: [Ruling; 3]) -> ([Verdict; 3], bool) {
    let mut tally = Tally::new(node(accuser), node(1), 3);
    let first = tally.note(1, rulings[0]);
    let second = tally.note(2, rulings[1]);
    let third = tally.note(3, rulings[2]);
    ([first, second, third], tally.may_be_heir())
}

/// Whether arbitrator 1 has answered before and after its ruling.
fn answered(accuser: u16, ruling: Ruling) -> (bool, bool) {
    let mut tally = Tally::new(node(accuser), node(1), 3);
    let before = tally.answered(1);
    let _ = tally.note(1, ruling);
    (before, tally.answered(1))
}

#[test]
fn three_accusers_of_one_node_have_no_heir(rt: HostRuntime) {
    let (g, t) = (Ruling::Granted, Ruling::Taken);
    let want = [Verdict::Open, Verdict::Discharged, Verdict::Discharged];
    let rows = [
        (verdicts(2, [g, t, t]), (want, false)),
        (verdicts(3, [t, g, t]), (want, false)),
        (verdicts(4, [t, t, g]), (want, false)),
    ];
    agree(&rt, &rows);
}

#[test]
fn an_arbitrator_has_answered_once_it_has_ruled(rt: HostRuntime) {
    let want = (false, true);
    let rows = [
        (answered(2, Ruling::Granted), want),
        (answered(3, Ruling::Taken), want),
        (answered(4, Ruling::Taken), want),
    ];
    agree(&rt, &rows);
}

/// The verdict after these rulings and that after a later answer, and whether the accuser may be heir before and after.
fn settled(rulings: [Ruling; 3]) -> ([Verdict; 2], [bool; 2]) {
    let mut tally = Tally::new(node(2), node(1), 3);
    let before = tally.may_be_heir();
    let _ = tally.note(1, rulings[0]);
    let _ = tally.note(2, rulings[1]);
    let verdict = tally.note(3, rulings[2]);
    let later = tally.note(3, Ruling::Granted);
    ([verdict, later], [before, tally.may_be_heir()])
}

#[test]
fn rulings_settle_an_accusation(rt: HostRuntime) {
    let (g, t, r) = (Ruling::Granted, Ruling::Taken, Ruling::Refused);
    let rows = [
        (settled([g, g, r]), ([Verdict::Heir; 2], [true, true])),
        (settled([r, r, g]), ([Verdict::Lost; 2], [true, false])),
        (
            settled([r, g, t]),
            ([Verdict::Discharged; 2], [true, false]),
        ),
    ];
    agree(&rt, &rows);
}

/// What a tally of three says after each of these configurations, of which the third has this primary.
fn said_of_three(third: u16) -> [Result<u16, &'static str>; 3] {
    let mut tally = VoteTally::new(3);
    let one = said(tally.note(1, &config(1)));
    let two = said(tally.note(2, &config(2)));
    [one, two, said(tally.note(3, &config(third)))]
}

#[test]
fn kept_configurations_decide_or_split(rt: HostRuntime) {
    let open = Err("open");
    let rows = [
        (said_of_three(1), [open, open, Ok(1)]),
        (said_of_three(3), [open, open, Err("split")]),
    ];
    agree(&rt, &rows);
    majorities_meet();
    one_decision();
}
