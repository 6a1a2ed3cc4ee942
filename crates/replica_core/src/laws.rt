ghost use Rattle.replica_core.specs.Laws.{NeverFalling, NoOlderEntry, OnlyGrowing, Promising, StayingBehind};

/// The promised epoch never falls, whatever is called.
pub fn the_promised_epoch_never_falls()
    ensures { NeverFalling }
{}

/// A log is of no epoch above the promised one, whatever is called.
pub fn no_log_is_ahead_of_the_promise()
    ensures { StayingBehind }
{}

/// Each call that is taken makes its epoch the promised one.
pub fn a_taken_call_promises_its_epoch()
    ensures { Promising }
{}

/// While the log is of one epoch, entries are only added to it.
pub fn the_log_of_an_epoch_only_grows()
    ensures { OnlyGrowing }
{}

/// No entry is accepted of an epoch below one that was promised, or in which an entry was accepted, before.
pub fn no_accepted_entry_is_older()
    ensures { NoOlderEntry }
{}
