ghost use Rattle.hold_span.specs.Laws.{NoLongerSpanIsCovered, SpanEndsBeforeFence};

/// While a parent counts the span from its question by a clock within the bound, the node's clock is below the fence.
pub fn a_span_ends_before_the_fence()
    ensures { SpanEndsBeforeFence }
{}

/// A wait for one tick more than the span may end behind the fence.
pub fn no_longer_span_is_covered()
    ensures { NoLongerSpanIsCovered }
{}
