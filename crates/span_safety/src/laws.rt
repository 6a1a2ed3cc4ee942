ghost use Rattle.span_safety.specs.Ends.{SparedWhileCounted};
ghost use Rattle.span_safety.specs.Examples.{ShorterLinks};
ghost use Rattle.span_safety.specs.Fences.{StepsKeepFences};
ghost use Rattle.span_safety.specs.Laws.{LivesHoldBeforePromised, LivesHoldWhileCounted, LivesStayWhileCounted};
ghost use Rattle.span_safety.specs.Laws.{RunsHoldBeforePromised, RunsHoldWhileCounted, RunsStayWhileCounted};

use world_rules::Above;

/// In no step does the fence of a node whose links have one length fall, unless the node leaves.
pub fn steps_keep_fences()
    ensures { StepsKeepFences }
{}

/// By a link of 10 ticks a fence falls from 1,005 to 35, in an example that is computed.
pub fn a_shorter_link_lets_the_fence_fall()
    ensures { ShorterLinks }
{}

/// An instance whose links have one length holds what it owns until the fence that it once told, and it alone, as long
/// as it runs and owns it.
pub fn promised_points_are_held<A: Above>()
    ensures { RunsHoldBeforePromised A.upper }
{}

/// So it does while somebody counts the span from a question, by a clock within the bound.
pub fn counted_points_are_held<A: Above>()
    ensures { RunsHoldWhileCounted A.upper }
{}

/// While the span is counted, nobody takes over from the instance, as long as it runs and has not left, whatever else it
/// does with its points.
pub fn counted_instances_stay<A: Above>()
    ensures { RunsStayWhileCounted A.upper }
{}

/// The same of a cluster that comes back any number of times after all its nodes have stopped.
pub fn lives_hold_promised_points<A: Above>()
    ensures { LivesHoldBeforePromised A.upper }
{}

/// The same of a cluster that comes back, by the span.
pub fn lives_hold_counted_points<A: Above>()
    ensures { LivesHoldWhileCounted A.upper }
{}

/// Nor does anybody take over from it in a cluster that comes back.
pub fn lives_keep_counted_instances<A: Above>()
    ensures { LivesStayWhileCounted A.upper }
{}

/// Nobody takes over from an instance that has ended, and nobody holds what it owned in the end, while somebody counts
/// the span that it promised before: it ended as its node stopped, or it left without sending a frame, and the node has
/// not started since.
pub fn ended_instances_are_spared<A: Above>()
    ensures { SparedWhileCounted A.upper }
{}
