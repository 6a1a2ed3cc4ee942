ghost use Rattle.ring_points.specs.Laws.{OneList, Unions, Differences, Meets, NearerParts, Nearness};

/// A set of points has one list.
pub fn a_set_has_one_list()
    ensures { OneList }
{}

/// The union of two lists has the points of either.
pub fn union_has_either()
    ensures { Unions }
{}

/// The difference of two lists has the points of the first that are not in the second.
pub fn difference_has_the_first_alone()
    ensures { Differences }
{}

/// The meet of two lists has the points of both.
pub fn meet_has_both()
    ensures { Meets }
{}

/// The nearer part of a list has its points that are nearer to the other point.
pub fn nearer_part_has_the_nearer()
    ensures { NearerParts }
{}

/// How near points are to a point is a strict total order of them.
pub fn nearer_is_a_strict_total_order()
    ensures { Nearness }
{}
