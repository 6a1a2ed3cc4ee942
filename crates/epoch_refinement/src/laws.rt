ghost use Rattle.epoch_refinement.specs.Laws.{AnswersAreDeeds, BeginningsAreShown, CommandsAreDeeds, FiringsAreDeeds};
ghost use Rattle.epoch_refinement.specs.Laws.{LogsAreKept, ManagerAnswersAreDeeds, QuestionsAreDeeds};
ghost use Rattle.epoch_refinement.specs.Laws.{QuestionsAreShown, ReplicaFramesAreDeeds, RestartsAreDeeds};
ghost use Rattle.epoch_refinement.specs.Laws.{StartsAreDeeds, StepsAreDeeds, WhoShowsIsFit, WritesAreDeeds};

/// Whatever frame comes to a replica that was sent, in whatever order and however often, what it makes of it is deeds
/// of the machine of its partition: what it sends is sent there, and what it tells is told there.
pub fn frames_are_deeds()
    ensures { ReplicaFramesAreDeeds }
{}

/// So is a write at a replica, whether it is taken or refused.
pub fn writes_are_deeds()
    ensures { WritesAreDeeds }
{}

/// So is what a replica sends again when it fires.
pub fn firings_are_deeds()
    ensures { FiringsAreDeeds }
{}

/// So is a restart of its node, after which a replica has its promise and its log, but no role and nothing collected.
pub fn restarts_are_deeds()
    ensures { RestartsAreDeeds }
{}

/// So is each answer of an arbitrator, with what it records before.
pub fn answers_are_deeds()
    ensures { AnswersAreDeeds }
{}

/// So is what a manager makes of an answer, in each phase: a majority that it counts is one of the machine, and what it
/// goes on to propose, to copy, to store and to activate is proposed, synced, asked for and activated there.
pub fn manager_answers_are_deeds()
    ensures { ManagerAnswersAreDeeds }
{}

/// So is a command to a manager: its epoch is above all that this instance left the phase Prepare of.
pub fn commands_are_deeds()
    ensures { CommandsAreDeeds }
{}

/// What a manager asks again when it fires shows what its phase has.
pub fn questions_are_shown()
    ensures { QuestionsAreShown }
{}

/// So each step of a whole node, with a frame that was sent, a command or a firing, is deeds of the machines of all
/// partitions, and leaves what all others show.
pub fn each_step_is_deeds()
    ensures { StepsAreDeeds }
{}

/// So is whatever a whole arbitrator is asked.
pub fn each_question_is_deeds()
    ensures { QuestionsAreDeeds }
{}

/// Where nothing was done, a node and an arbitrator that have recorded nothing show the machines.
pub fn beginnings_are_shown()
    ensures { BeginningsAreShown }
{}

/// A replica that shows a world of its partition's machine records what it becomes: its log is of no epoch above its
/// promise, and it takes no log of more than 100,000 entries.
pub fn who_shows_is_fit()
    ensures { WhoShowsIsFit }
{}

/// So a start from a node's records is deeds of the machine: the replica that it begins with is that of the instance
/// before, begun again.
pub fn starts_are_deeds()
    ensures { StartsAreDeeds }
{}

/// And the machine's log is that of the records.
pub fn logs_are_kept()
    ensures { LogsAreKept }
{}
