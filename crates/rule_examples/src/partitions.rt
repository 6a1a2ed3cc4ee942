ghost use Rattle.rule_examples.specs.Arbiters.{AnswersInOrder, Dones, Prepares, Votes};
ghost use Rattle.rule_examples.specs.Managers.{Epochs, FiringInOrder, Managers, Memory, Refusals as ManagerRefusals};
ghost use Rattle.rule_examples.specs.Managers.{Starts, Ups};
ghost use Rattle.rule_examples.specs.Moves.{MovesThePrimary};
ghost use Rattle.rule_examples.specs.Names.{AsksTooEarly, NamesAnswered, SetsAName};
ghost use Rattle.rule_examples.specs.Phases.{AfterPrepare, Choices, Copies, Decisions, Moves, Preparations};
ghost use Rattle.rule_examples.specs.Phases.{Supersessions};
ghost use Rattle.rule_examples.specs.Replicas.{Activations, Fetches, Pieces, Promises, Syncs};
ghost use Rattle.rule_examples.specs.Runs.{CreatesAndWrites, ListsUnits, LosesAndGoesOn, RefusesMore};
ghost use Rattle.rule_examples.specs.Writes.{Appends, Confirmations, FiringOfAPrimary, Refusals as ReplicaRefusals};
ghost use Rattle.rule_examples.specs.Writes.{Writes};

/// A fresh arbitrator answers one question after the other.
pub fn an_arbitrator_answers()
    ensures in_order { AnswersInOrder }
    ensures prepares { Prepares }
{}

/// Which configuration an arbitrator votes for.
pub fn an_arbitrator_votes()
    ensures { Votes }
{}

/// Which configuration an arbitrator keeps as done.
pub fn an_arbitrator_keeps_what_is_done()
    ensures { Dones }
{}

/// Who manages: the node that holds ring point 0.
pub fn the_holder_of_point_0_manages()
    ensures { Managers }
{}

/// What a manager refuses, in which order.
pub fn a_manager_refuses()
    ensures { ManagerRefusals }
{}

/// The epochs that a manager uses.
pub fn epochs_follow()
    ensures { Epochs }
{}

/// What a manager remembers of a reconfiguration.
pub fn a_manager_remembers()
    ensures { Memory }
{}

/// Which nodes are up, and how loaded they are.
pub fn nodes_are_up()
    ensures { Ups }
{}

/// When Prepare ends, and with which configuration.
pub fn epochs_are_prepared()
    ensures { Preparations }
{}

/// How each command goes on after Prepare.
pub fn commands_go_on()
    ensures { AfterPrepare }
{}

/// How a swap moves on from the old primary.
pub fn a_swap_moves()
    ensures { Moves }
{}

/// Whose log is taken, and who becomes primary.
pub fn the_furthest_is_chosen()
    ensures { Choices }
{}

/// When the vote ends.
pub fn votes_decide()
    ensures { Decisions }
{}

/// When the log is copied.
pub fn logs_are_copied()
    ensures { Copies }
{}

/// When another epoch ends a reconfiguration.
pub fn a_higher_epoch_supersedes()
    ensures { Supersessions }
{}

/// What Promise does.
pub fn a_replica_promises()
    ensures { Promises }
{}

/// What Sync does.
pub fn a_replica_takes_a_log()
    ensures { Syncs }
{}

/// What Fetch does.
pub fn a_replica_gives_entries()
    ensures { Fetches }
{}

/// What Piece does.
pub fn a_replica_collects_entries()
    ensures { Pieces }
{}

/// What Activate does.
pub fn a_replica_takes_its_role()
    ensures { Activations }
{}

/// What Append does.
pub fn a_replica_appends()
    ensures { Appends }
{}

/// What a replica refuses that promised an epoch, or has an empty log.
pub fn a_replica_refuses()
    ensures { ReplicaRefusals }
{}

/// What a write does.
pub fn a_primary_writes()
    ensures { Writes }
{}

/// What Appended does.
pub fn a_primary_commits()
    ensures { Confirmations }
{}

/// What is sent at a firing.
pub fn a_firing_sends_again()
    ensures primary { FiringOfAPrimary }
    ensures order { FiringInOrder }
{}

/// With which replicas an instance starts.
pub fn a_start_has_its_replicas()
    ensures { Starts }
{}

/// A partition is created with one replica, and written.
pub fn creates_and_writes()
    ensures { CreatesAndWrites }
{}

/// A partition is known once it is active.
pub fn lists_units()
    ensures { ListsUnits }
{}

/// What is refused after that.
pub fn refuses_more()
    ensures { RefusesMore }
{}

/// A partition goes on after a loss of data.
pub fn loses_and_goes_on()
    ensures { LosesAndGoesOn }
{}

/// A partition of two nodes is created and written, and its primary moves.
pub fn moves_the_primary()
    ensures { MovesThePrimary }
{}

/// What is answered about names.
pub fn a_primary_answers_about_names()
    ensures { NamesAnswered }
{}

/// No name is answered before the first commit.
pub fn asks_too_early()
    ensures { AsksTooEarly }
{}

/// A name is set, looked up and listed.
pub fn sets_a_name()
    ensures { SetsAName }
{}
