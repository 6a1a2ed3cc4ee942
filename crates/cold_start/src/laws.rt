ghost use Rattle.cold_start.specs.Example.{TwoHold};
ghost use Rattle.cold_start.specs.Laws.{BeginsOnce, NextMayBeAgain, OneBeginsWithTheRing, OneLifeIsASchedule, PastMayNot};

use world_rules::Above;

/// One life is a schedule: its world and its run are those of the schedule, and it is valid where the schedule is.
pub fn one_life_is_a_schedule<A: Above>()
    ensures { OneLifeIsASchedule A.upper }
{}

/// Whoever starts begins with the whole ring if it is the instance that the life names, and else with nothing.
pub fn one_begins_with_the_ring<A: Above>()
    ensures { OneBeginsWithTheRing A.upper }
{}

/// Of two starts of a node, the later one behind the records of the earlier one, at most one begins with points. So a
/// life begins once, however often its node starts in it.
pub fn begins_once<A: Above>()
    ensures { BeginsOnce A.upper }
{}

/// Where no node runs, a new life may begin with the next instance of any node.
pub fn next_may_be_again<A: Above>()
    ensures { NextMayBeAgain A.upper }
{}

/// No life begins with an instance that has run by the records of its node.
pub fn past_may_not_be_again<A: Above>()
    ensures { PastMayNot A.upper }
{}

/// Why no node may run when a new life begins: in a run in which one does, two instances hold one point.
pub fn two_hold_where_one_runs_on()
    ensures { TwoHold }
{}
