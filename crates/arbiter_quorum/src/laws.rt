ghost use Rattle.arbiter_quorum.specs.Laws.{MajoritiesMeet, OneDecision};

/// Two majorities of the same arbitrators share a member.
pub fn majorities_meet()
    ensures { MajoritiesMeet }
{}

/// Two vote tallies that the same arbitrators answer, each both alike, never decide two configurations.
pub fn one_decision()
    ensures { OneDecision }
{}
