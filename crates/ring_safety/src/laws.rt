ghost use Rattle.ring_safety.specs.Laws.{AnswersExcludeAlways, LeavesBeforeTakeOver, OneHeirAlways, PlacesAreKept};
ghost use Rattle.ring_safety.specs.Laws.{RingIsSafe};
ghost use Rattle.ring_safety.specs.Lives.{LivesAreSafe, LivesExclude, LivesHaveOneHeir, LivesKeepPlaces};
ghost use Rattle.ring_safety.specs.Lives.{LivesLeaveBeforeTakeOver};
ghost use Rattle.world_rules.specs.Nothing.{nothing};

use world_rules::{Above, Nothing};

/// At no moment of a valid run of a sound configuration do two instances hold one point, by what they told and what
/// their clocks show.
pub fn ring_is_safe<A: Above>()
    ensures { RingIsSafe A.upper }
{}

/// From the moment on at which an instance tells that it took over from another, that other holds nothing.
pub fn leaves_before_take_over<A: Above>()
    ensures { LeavesBeforeTakeOver A.upper }
{}

/// Points stay where they are told to be: what a live instance owns is exactly what is placed with it, each move takes
/// its points from where they are, and no instance uses a flight's number twice. All points begin with instance 1 of
/// the first node.
pub fn places_are_kept<A: Above>()
    ensures { PlacesAreKept A.upper }
{}

/// Exclusion: never have a majority of the arbitrators sent answers to x about y, and a majority to y about x, where an
/// answer is Granted or Taken.
pub fn answers_exclude<A: Above>()
    ensures { AnswersExcludeAlways A.upper }
{}

/// Uniqueness: never has a majority of arbitrators told that it keeps one instance, and a majority that it keeps
/// another, about one instance, each in some round, whatever the rounds; a Granted tells it of the first round.
pub fn one_heir_at_most<A: Above>()
    ensures { OneHeirAlways A.upper }
{}

/// The ring is safe where nothing runs above it.
pub fn ring_is_safe_with_nothing_above()
    ensures { RingIsSafe nothing }
{
    ring_is_safe::<Nothing>()
}

/// At no moment of any life do two instances hold one point, where the cluster comes back any number of times, each time
/// after all its nodes have stopped, with an instance that has not run before.
pub fn lives_are_safe<A: Above>()
    ensures { LivesAreSafe A.upper }
{}

/// From the moment on at which an instance tells that it took over from another, that other holds nothing, in this life
/// and in each later one.
pub fn lives_leave_before_take_over<A: Above>()
    ensures { LivesLeaveBeforeTakeOver A.upper }
{}

/// In each life points stay where they are told to be. All points begin with the instance that begins with the whole
/// ring in this life: with instance 1 of the first node in the first one, and then with the one that the life names.
pub fn lives_keep_places<A: Above>()
    ensures { LivesKeepPlaces A.upper }
{}

/// Exclusion, over the answers of all lives: never have a majority of the arbitrators sent answers to x about y, and a
/// majority to y about x, where an answer is Granted or Taken.
pub fn lives_exclude<A: Above>()
    ensures { LivesExclude A.upper }
{}

/// Uniqueness, over the answers of all lives: never has a majority of arbitrators told that it keeps one instance, and a
/// majority that it keeps another, about one instance.
pub fn lives_have_one_heir<A: Above>()
    ensures { LivesHaveOneHeir A.upper }
{}
