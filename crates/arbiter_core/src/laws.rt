ghost use Rattle.std.specs.Prelude.{List};
ghost use Rattle.fabric_terms.specs.declared.record.Record.{Record};
ghost use Rattle.ring_rules.specs.Arbiters.{Table};
ghost use Rattle.arbiter_core.specs.Laws.{KeptForGood, RecordingOnce, RulingAgain, SettledAgain};

/// What is recorded of an accusation is the first record of its victim, and what is recorded of a claim the first of
/// its round, about an accused victim.
pub fn what_is_recorded_is_new()
    ensures { (table : Table) → RecordingOnce table }
{}

/// The same accusation is ruled on as before, once it is recorded; and whoever claims a round again is told whom the
/// first claim was told.
pub fn the_same_question_gets_the_same_ruling()
    ensures rulings { RulingAgain }
    ensures rounds { SettledAgain }
{}

/// A victim's first accuser and a round's first claimer are kept for good, whatever is recorded after.
pub fn what_is_kept_stays()
    ensures { (table : Table) (records : List Record) → KeptForGood table records }
{}
