ghost use Rattle.write_safety.specs.Laws.{CommitsAgreeAlways, FedBooksHaveCommitted, LivesAgree, LogsStandBeside};
ghost use Rattle.write_safety.specs.Laws.{ReportsFeedBooks};

/// Two reports that entries are committed, of one partition and data loss number, say the same entries up to the
/// smaller of their numbers, whichever nodes made them, in whichever epochs, and whichever was the earlier one.
pub fn commits_agree()
    ensures { CommitsAgreeAlways }
{}

/// The same of all lives of a cluster that comes back after all its nodes have stopped: also where the two reports are of
/// two lives.
pub fn lives_agree()
    ensures { LivesAgree }
{}

/// So a book may be fed with each report of a valid run in turn.
pub fn reports_feed_books()
    ensures { ReportsFeedBooks }
{}

/// And one that is has exactly the committed logs of the run.
pub fn fed_books_have_committed()
    ensures { FedBooksHaveCommitted }
{}

/// Who reports that entries are committed runs, and the log of its replica is what its records amount to.
pub fn logs_stand_beside()
    ensures { LogsStandBeside }
{}
