ghost use Rattle.cluster_safety.specs.Laws.{ClusterIsSafe, NothingIsRecalled, ServedClusterIsSafe, StepsAsMoments};

/// The steps of a cluster in one process are safe, whatever its devices hand in: in every order that its plan allows,
/// from empty records, where each frame that it hears equals one that it has sent before.
pub fn a_cluster_is_safe()
    ensures { ClusterIsSafe }
{}

/// So are those of a served cluster in one process, to whose nodes commands come while it runs, and whose turns may end
/// without a firing.
pub fn a_served_cluster_is_safe()
    ensures { ServedClusterIsSafe }
{}

/// A run that begins with a keeper that holds no record of its actors begins as this law asks.
pub fn nothing_is_recalled_from_an_empty_keeper()
    ensures { NothingIsRecalled }
{}

/// The moments of two nodes and an arbitrator, as an example that is computed.
pub fn steps_as_moments()
    ensures { StepsAsMoments }
{}
