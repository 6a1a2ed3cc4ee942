ghost use Rattle.token_core.specs.Laws.{Announcing, Freezing, Giving, Gaining, Inheriting};

/// An owned point is announced unless it is frozen.
pub fn frozen_points_are_not_announced()
    ensures { Announcing }
{}

/// A freeze keeps what is owned, and freezes the owned points of its part.
pub fn a_freeze_has_the_owned_points()
    ensures { Freezing }
{}

/// What is given is owned no more, and what is announced stays.
pub fn a_gift_leaves_the_rest()
    ensures { Giving }
{}

/// What is taken is owned too.
pub fn a_gain_has_both()
    ensures { Gaining }
{}

/// What is inherited was held or in flight, and not owned.
pub fn an_inheritance_is_what_was_not_owned()
    ensures { Inheriting }
{}
