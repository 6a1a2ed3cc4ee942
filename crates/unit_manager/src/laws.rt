ghost use Rattle.unit_manager.specs.Laws.{AnswersAreTheRules, LoadsAreTheRules};

/// The nodes that a caller hands in without their loads are, with them, those that the rules place by: a law of the
/// definitions.
#[tactic(auto, using(crate::proofs::Loading::loads_are))]
pub fn nodes_are_loaded_as_the_rules_say()
    ensures { LoadsAreTheRules }
{}

/// Where a frame is an answer, the manager's call is the whole of its row at a node: a law of the definitions.
#[tactic(auto, using(crate::proofs::Answers::answers_are))]
pub fn answers_go_to_the_manager()
    ensures { AnswersAreTheRules }
{}
