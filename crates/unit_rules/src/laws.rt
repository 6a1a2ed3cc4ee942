ghost use Rattle.unit_rules.specs.Laws.{QuestionsOnlyTell, RegisterIsRecorded};

/// An arbitrator's registers are at every moment what its records amount to, so a restart forgets nothing.
pub fn registers_are_recorded()
    ensures { RegisterIsRecorded }
{}

/// A question about names moves no replica, and records and sends nothing: it only tells.
pub fn questions_only_tell()
    ensures { QuestionsOnlyTell }
{}
