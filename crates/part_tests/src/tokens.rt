use crate::rows::agree;
use join_phases::{Booting, Routing};
use ring_points::{Interval, RangeSet};
use std::process::Abort;
use token_core::{Token, TokenRefusal};

fn set(rt: &impl Abort, pairs: &[(u64, u64)]) -> RangeSet {
    let mut set = RangeSet::new();
    for (lo, hi) in pairs {
        let one = RangeSet::from_pairs(&[Interval { lo: *lo, hi: *hi }]).expect(rt, "an interval");
        set = set.union(&one).expect(rt, "room");
    }
    set
}

fn routing(rt: &impl Abort) -> Routing {
    let Ok(routing) = Booting::new(true, 1).found() else {
        panic!(rt; "the first node has not founded the ring");
    };
    routing
}

fn are(rt: &impl Abort, found: &RangeSet, pairs: &[(u64, u64)]) {
    assert_eq!(rt;
        found.intervals(),
        set(rt, pairs).intervals(),
        "for {pairs:?}"
    );
}

const HALF: (u64, u64) = (0x4000_0000_0000_0001, 0xbfff_ffff_ffff_ffff);

const OTHER_HALF: [(u64, u64); 2] = [(0, 1 << 62), (3 << 62, u64::MAX)];

const WHOLE: (u64, u64) = (0, u64::MAX);

/// What a token answers that is to freeze this part for this session.
fn frozen(
    rt: &impl Abort,
    token: &mut Token,
    part: (u64, u64),
    session: usize,
) -> Result<(), TokenRefusal> {
    token.freeze(&routing(rt), &set(rt, &[part]), session)
}

/// Why a token gives nothing where this is the least that is acknowledged.
fn gives_nothing(rt: &impl Abort, token: &mut Token, acknowledged: u32) -> Option<TokenRefusal> {
    token.give(&routing(rt), acknowledged).err()
}

/// A token of the whole ring, of which a half is frozen for session 3.
fn half_frozen(rt: &impl Abort) -> Token {
    let mut token = Token::new(RangeSet::whole());
    assert_eq!(rt; frozen(rt, &mut token, HALF, 3), Ok(()));
    token
}

#[test]
fn a_frozen_half_is_announced_no_more(rt: HostRuntime) {
    let mut token = half_frozen(&rt);
    assert_eq!(rt; (token.version(), token.frozen_for()), (2, Some(3)));
    are(&rt, token.announced(), &OTHER_HALF);
    assert_eq!(rt; frozen(&rt, &mut token, HALF, 4), Err(TokenRefusal::Busy));
}

/// The token gives the half, in its first flight.
fn gives_half(rt: &impl Abort, token: &mut Token) {
    match token.give(&routing(rt), 2) {
        Ok(flight) => {
            assert_eq!(rt; flight.number, 1);
            are(rt, &flight.part, &[HALF]);
        }
        Err(refusal) => panic!(rt; "{refusal:?}"),
    }
}

/// The token, whose freeze is of version 2, gives nothing where 1 is the least that is acknowledged.
fn waits(rt: &impl Abort, token: &mut Token) {
    assert_eq!(rt; (token.ready(1), token.ready(2)), (false, true));
    let refusal = gives_nothing(rt, token, 1);
    assert_eq!(rt; refusal, Some(TokenRefusal::NotReady));
    are(rt, token.ranges(), &[WHOLE]);
}

#[test]
fn a_frozen_half_is_given_once_it_is_acknowledged(rt: HostRuntime) {
    let mut token = half_frozen(&rt);
    waits(&rt, &mut token);
    gives_half(&rt, &mut token);
    assert_eq!(rt; token.version(), 2);
    are(&rt, token.ranges(), &OTHER_HALF);
}

#[test]
fn a_half_is_given_once(rt: HostRuntime) {
    let mut token = half_frozen(&rt);
    gives_half(&rt, &mut token);
    assert_eq!(rt; frozen(&rt, &mut token, HALF, 3), Err(TokenRefusal::Empty));
    let refusal = gives_nothing(&rt, &mut token, 2);
    assert_eq!(rt; refusal, Some(TokenRefusal::NoFreeze));
}

/// A token of 0 to 12, of which 5 to 9 is frozen: it was so before it took 10 to 12.
fn frozen_and_taken(rt: &impl Abort) -> Token {
    let mut token = Token::new(set(rt, &[(0, 9)]));
    let rows = [
        (token.undo(), Err(TokenRefusal::NoFreeze)),
        (frozen(rt, &mut token, (5, 20), 0), Ok(())),
        (token.take(&set(rt, &[(10, 12)])), Ok(())),
    ];
    agree(rt, &rows);
    token
}

#[test]
fn a_freeze_is_undone_and_a_part_taken(rt: HostRuntime) {
    let mut token = frozen_and_taken(&rt);
    are(&rt, token.ranges(), &[(0, 12)]);
    are(&rt, token.announced(), &[(0, 4), (10, 12)]);
    assert_eq!(rt; token.undo(), Ok(()));
    are(&rt, token.announced(), &[(0, 12)]);
    assert_eq!(rt; (token.version(), token.frozen_for()), (4, None));
}

/// What the token of an heir gains of what its victim held and of a flight.
fn inherited(rt: &impl Abort, token: &mut Token, held: (u64, u64), flight: (u64, u64)) -> RangeSet {
    let flight = set(rt, &[flight]);
    let gained = token.inherit(&set(rt, &[held]), Some(&flight));
    gained.expect(rt, "an inheritance")
}

#[test]
fn an_heir_gets_what_it_does_not_own(rt: HostRuntime) {
    let mut token = Token::new(set(&rt, &[(0, 9)]));
    let added = inherited(&rt, &mut token, (5, 14), (20, 29));
    are(&rt, &added, &[(10, 14), (20, 29)]);
    are(&rt, token.ranges(), &[(0, 14), (20, 29)]);
}

#[test]
fn a_token_is_ripe_at_its_time(rt: HostRuntime) {
    assert!(rt; !Token::ripen(7182, 7183) && Token::ripen(7183, 7183));
}
