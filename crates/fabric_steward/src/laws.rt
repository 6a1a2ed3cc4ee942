ghost use Rattle.fabric_steward.specs.Laws.{GivesItsNames, GivesWhatFits, KeepsItsNames, LeavesByItsWords};
ghost use Rattle.fabric_steward.specs.Laws.{PausesBetween};

/// Whatever the node knows, the policy gives joins, finds, links, creates and heals alone, and names only what it may name.
#[tactic(auto, using(crate::proofs::Naming::gives_its_names))]
pub fn the_policy_gives_its_names()
    ensures { GivesItsNames }
{}

/// What the policy may name stays as it was configured.
#[tactic(auto, using(crate::proofs::Naming::keeps_its_names))]
pub fn the_policy_keeps_its_names()
    ensures { KeepsItsNames }
{}

/// With what was read from FILE, each command of the policy is in the grammar of commands.
#[tactic(auto, using(crate::proofs::Fitting::gives_what_fits))]
pub fn the_policy_gives_what_fits()
    ensures { GivesWhatFits }
{}

/// Whatever the calls are, two commands for one partition are at least a pause apart.
#[tactic(auto, using(crate::proofs::Pausing::pauses_between))]
pub fn the_policy_pauses_between_commands()
    ensures { PausesBetween }
{}

/// A node that leaves heals declared partitions with their replicas, moves primaries of them to members, gives points to
/// configured nodes and parts links with them, and commands nothing else.
#[tactic(auto, using(crate::proofs::LeavingWords::leaves_by_its_words))]
pub fn a_departure_has_its_words()
    ensures { LeavesByItsWords }
{}
