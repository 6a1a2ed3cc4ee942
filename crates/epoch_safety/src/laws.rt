ghost use Rattle.epoch_safety.specs.Answers.{AnswersAreByEntries, OnlyQuestionsAreAnswered};
ghost use Rattle.epoch_safety.specs.Laws.{AnswersAreCovered, AnswersAreOfCommitted, NamesAreCovered, RunsHaveNoOlder};
ghost use Rattle.epoch_safety.specs.Laws.{RunsHaveOnePrimary, WritesAreKept};
ghost use Rattle.epoch_safety.specs.Lives.{LivesAnswerOfCommitted, LivesCoverAnswers, LivesCoverNames};
ghost use Rattle.epoch_safety.specs.Lives.{LivesHaveNoOlder, LivesHaveOnePrimary, LivesKeepWrites};

/// In no valid run of a sound configuration do two nodes report that they are primary of one partition in one epoch.
pub fn runs_have_one_primary()
    ensures { RunsHaveOnePrimary }
{}

/// No node reports that it accepted a write of an older epoch than one that it promised or accepted in before, over all
/// its instances.
pub fn runs_have_no_older()
    ensures { RunsHaveNoOlder }
{}

/// Once `last` entries of a partition are reported committed, the log of each primary of a later epoch of the same data
/// loss number begins with them when it reports itself primary, whichever of the two reports is the earlier one. A log
/// is what the node's synced records amount to after the event of the report.
pub fn writes_are_kept()
    ensures { WritesAreKept }
{}

/// What a primary reports committed begins with all that was reported committed before, in epochs up to its own of the
/// same data loss number. So whoever answers by these entries leaves out none of them.
pub fn answers_are_covered()
    ensures { AnswersAreCovered }
{}

/// Whoever may answer about names answers by entries that begin with all that was reported committed before, in epochs
/// up to its own of the same data loss number. So no answer leaves out a name that a committed write has set.
pub fn names_are_covered()
    ensures { NamesAreCovered }
{}

/// Whoever reports an answer about names at a question was ready to answer, and told what the names are that these
/// entries leave.
pub fn answers_are_by_entries()
    ensures { AnswersAreByEntries }
{}

/// Whatever comes, an answer about names is reported at a question about names alone: at no start, stop, firing, frame
/// or other command.
pub fn only_questions_are_answered()
    ensures { OnlyQuestionsAreAnswered }
{}

/// Each answer about names that a valid run reports answers the question that came at that event, of the partition that
/// it asked about. It says what the names are that so many entries of the node's log leave. These begin with all that
/// was reported committed of that partition before, in epochs up to the replica's own of the same data loss number.
pub fn answers_are_of_committed()
    ensures { AnswersAreOfCommitted }
{}

/// In no life of a cluster that comes back do two nodes report that they are primary of one partition in one epoch, nor
/// in two lives.
pub fn lives_have_one_primary()
    ensures { LivesHaveOnePrimary }
{}

/// No node reports that it accepted a write of an older epoch than one that it promised or accepted before, in this life
/// or in an earlier one.
pub fn lives_have_no_older()
    ensures { LivesHaveNoOlder }
{}

/// Once `last` entries of a partition are reported committed in any life, the log of each primary of a later epoch of
/// the same data loss number begins with them when it reports itself primary, in whichever life.
pub fn lives_keep_writes()
    ensures { LivesKeepWrites }
{}

/// What a primary reports committed begins with all that was reported committed before, in this life and in earlier
/// ones, in epochs up to its own of the same data loss number.
pub fn lives_cover_answers()
    ensures { LivesCoverAnswers }
{}

/// Whoever may answer about names answers by entries that begin with all that was reported committed before, in this
/// life and in earlier ones, in epochs up to its own of the same data loss number.
pub fn lives_cover_names()
    ensures { LivesCoverNames }
{}

/// Each answer about names that is reported in any life answers the question that came at that event, of the partition
/// that it asked about, by entries that cover what was committed before, in this life and in earlier ones.
pub fn lives_answer_of_committed()
    ensures { LivesAnswerOfCommitted }
{}
