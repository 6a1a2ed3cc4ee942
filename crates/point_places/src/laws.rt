ghost use Rattle.point_places.specs.Laws.{SamePlaces, OneText};

/// Two places that the order does not tell apart are equal.
pub fn places_are_told_apart()
    ensures { SamePlaces }
{}

/// Two texts of lines for the same places and the same holders are equal.
pub fn lines_have_one_text()
    ensures { OneText }
{}
