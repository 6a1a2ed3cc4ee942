ghost use Rattle.ring_safety.specs.ClusterSchedule.{ClusterIsSchedule};
ghost use Rattle.ring_safety.specs.StrangeFrames.{StrangeFrames};

use world_rules::Above;

/// What comes to a cluster in one process, with no record kept before and no frame but those that were sent, is a valid
/// schedule that leaves each actor the same; so its run is safe.
pub fn a_cluster_is_a_schedule<A: Above>()
    ensures { ClusterIsSchedule A.upper }
{}

/// A frame that a node does not take makes it leave where its fence is past, as a firing does, and else does nothing.
pub fn a_strange_frame_is_a_firing_or_nothing<A: Above>()
    ensures { StrangeFrames A.upper }
{}
