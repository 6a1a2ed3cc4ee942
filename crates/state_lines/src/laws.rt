ghost use Rattle.state_lines.specs.Laws.{ChangesKeepTheirTime, EachReplicaHasALine};

/// The time of a reconfiguration counts from the turn in which it was first seen, as long as it is under way.
pub fn changes_keep_their_time()
    ensures { ChangesKeepTheirTime }
{}

/// A node's answer has one line of each of its replicas.
pub fn each_replica_has_a_line()
    ensures { EachReplicaHasALine }
{}
