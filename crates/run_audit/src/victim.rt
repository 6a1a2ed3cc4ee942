ghost use Rattle.std.specs.Prelude.{◌≡◌, IsTrue, All};
ghost use Rattle.ring_points.specs.Ranges.{rises_from};
ghost use Rattle.run_audit.specs.Overlaps.{Among, Rises};
ghost use Rattle.run_audit.specs.Victims.{is_named_before, lesser_victim, IsLeastVictim, IsVictim};

use crate::overlap::LiveHolder;
use crate::take_overs::TakeOvers;
use ring_points::Who;

/// An instance that was taken over and holds a point.
#[derive(Clone, Copy)]
pub struct Victim {
    pub who: Who,
    pub point: u64,
}

/// Whether `first` is named before `second`: by the instance, then by the point.
fn is_named_before(first: &Victim, second: &Victim) -> bool
    ensures { result ≡ is_named_before first.now second.now }
{
    (first.who, first.point) < (second.who, second.point)
}

/// The one that is named first.
fn lesser(best: Option<Victim>, found: Option<Victim>) -> Option<Victim>
    ensures { result ≡ lesser_victim best found }
{
    match (best, found) {
        (Some(b), Some(f)) => {
            if is_named_before(&f, &b) {
                Some(f)
            } else {
                Some(b)
            }
        }
        (None, _) => found,
        _ => best,
    }
}

/// The holder with its least point, if it was taken over and has one.
#[tactic(auto, using(crate::proofs::Victims::victims))]
fn victim_of(holder: &LiveHolder, taken: &TakeOvers) -> Option<Victim>
    requires { IsTrue (rises_from 0 holder.now.ranges.now) }
    ensures { IsLeastVictim (IsVictim taken.now holder.now) result }
{
    if !taken.has(holder.who) {
        return None;
    }
    match holder.ranges {
        [] => None,
        [first, ..] => Some(Victim {
            who: holder.who,
            point: first.lo,
        }),
    }
}

/// Of these holders, the least that was taken over and has a point, with its least point.
#[tactic(auto, using(crate::proofs::Victims::victims))]
pub fn first_victim(all: &[LiveHolder], taken: &TakeOvers) -> Option<Victim>
    requires { All Rises all.now }
    ensures { IsLeastVictim (Among all.now (IsVictim taken.now)) result }
{
    let mut best = None;
    for holder in all {
        best = lesser(best, victim_of(holder, taken));
    }
    best
}
