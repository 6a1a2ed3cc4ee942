ghost use Rattle.replica_records.specs.Laws.{NothingIsKept, ReplicaStatesAreKept, StartsAreKept, StartsBeginAgain};
ghost use Rattle.replica_records.specs.Laws.{StartsGoOn, StartsRise, StartsStayKept, StepsAreKept, StepsStayKept};

/// Whatever frame, command or firing comes to a node, its records with those of the step give its replicas after the
/// step, but for their roles. It takes no log of more than 100,000 entries.
pub fn steps_are_kept()
    ensures { StepsAreKept }
{}

/// Who starts from such records has the replicas of the instance before, but for their roles and what they had
/// collected.
pub fn starts_go_on()
    ensures { StartsGoOn }
{}

/// With the record of a start, whatever was recorded before, the records give the replicas that it begins with.
pub fn starts_are_kept()
    ensures { StartsAreKept }
{}

/// The replicas of a start stand by rising partition.
pub fn starts_rise()
    ensures { StartsRise }
{}

/// Before anything is recorded, records name no replica, and none stands.
pub fn nothing_is_kept()
    ensures { NothingIsKept }
{}

/// Whatever frame in the ranges of frames, command or firing comes to a node, the records with those of the step name
/// the replicas that stand after it and are not as new, each exactly but for its role, and no other.
pub fn steps_stay_kept()
    ensures { StepsStayKept }
{}

/// With the record of a start they name those that the start begins with.
pub fn starts_stay_kept()
    ensures { StartsStayKept }
{}

/// Who starts begins with the replicas of the instance before that are not as new, without roles and without what they
/// had collected, and with no other.
pub fn states_are_kept()
    ensures { ReplicaStatesAreKept }
{}

/// A start that records nothing begins with what the next start begins with.
pub fn starts_begin_again()
    ensures { StartsBeginAgain }
{}
