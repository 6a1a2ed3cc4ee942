ghost use Rattle.std.specs.Prelude.{◌≡◌, ◌≤◌};

use heir_rounds::{RoundTally, RoundVerdict};
use ring_points::Who;

fn node(actor: u16) -> Who {
    Who { actor, instance: 1 }
}

/// What a tally of three says where an arbitrator has kept the first instance of this node in this round.
fn noted(tally: &mut RoundTally, round: u8, arbitrator: u8, kept: u16) -> RoundVerdict
    requires three { tally.old.arbitrators ≡ 3 }
    requires from { 1 ≤ arbitrator }
    requires to { arbitrator ≤ 3 }
    ensures { tally.new.arbitrators ≡ 3 }
{
    tally.note(round, arbitrator, node(kept))
}

/// What a tally at 2.1 says of a first round that is split, and whether arbitrator 1 has answered within and after it.
fn first_round(tally: &mut RoundTally) -> ([RoundVerdict; 3], [bool; 2])
    requires { tally.old.arbitrators ≡ 3 }
    ensures { tally.new.arbitrators ≡ 3 }
{
    let one = noted(tally, 1, 1, 2);
    let within = tally.answered(1);
    let two = noted(tally, 1, 2, 3);
    let three = noted(tally, 1, 3, 4);
    ([one, two, three], [within, tally.answered(1)])
}

/// What a tally at 2.1 says of a second round that it wins.
fn second_round(tally: &mut RoundTally) -> [RoundVerdict; 3]
    requires { tally.old.arbitrators ≡ 3 }
{
    let one = noted(tally, 2, 1, 2);
    let two = noted(tally, 2, 2, 2);
    [one, two, noted(tally, 2, 3, 3)]
}

/// What a tally at 2.1 in its second round says of an answer of the first, and of a second round that is split too.
fn split_again(tally: &mut RoundTally) -> [RoundVerdict; 4]
    requires { tally.old.arbitrators ≡ 3 }
{
    let late = noted(tally, 1, 1, 2);
    let one = noted(tally, 2, 1, 2);
    let two = noted(tally, 2, 2, 3);
    [late, one, two, noted(tally, 2, 3, 4)]
}

#[test]
fn a_split_round_opens_the_next(rt: HostRuntime) {
    let mut tally = RoundTally::new(node(2), 3, 2);
    assert_eq!(rt; tally.round(), 1);
    let (open, won) = (RoundVerdict::Open, RoundVerdict::Won);
    let want = ([open, open, RoundVerdict::Next(2)], [true, false]);
    assert_eq!(rt; first_round(&mut tally), want);
    assert_eq!(rt; second_round(&mut tally), [open, won, won]);
}

// The first round of two is split, and so is the second.
#[test]
fn the_last_round_that_is_split_is_over(rt: HostRuntime) {
    let mut tally = RoundTally::new(node(2), 3, 2);
    let _ = first_round(&mut tally);
    let open = RoundVerdict::Open;
    let want = [open, open, open, RoundVerdict::Over];
    assert_eq!(rt; split_again(&mut tally), want);
}
