ghost use Rattle.ring_refinement.specs.Laws.{StepIsDeeds, StartIsShown, SpentIsLeft};

/// From a world of the machine that a node's ring shows, each step of the ring comes by deeds of its instance, one
/// after another at one reading, and by leaving where the ring leaves, to a world that the ring then shows. What is
/// sent is sent there, and each report moves its points from where they are there.
pub fn each_step_is_deeds()
    ensures { StepIsDeeds }
{}

/// The ring of a node that starts shows the instance that starts on the machine. It has the whole ring if it is the one
/// that begins with it.
pub fn a_start_is_shown()
    ensures { StartIsShown }
{}

/// The ring of a node that has no number for another instance has left from the start.
pub fn a_spent_start_has_left()
    ensures { SpentIsLeft }
{}
