//! How long a service may serve a point by its own clock after it asked its node.
//!
//! The node knows its fence, the reading at which it stops holding. Its parent counts by a clock of its own from the
//! moment at which it sent the question, which was before the node read its clock. Both clocks keep one bound. This crate
//! stands on that bound alone. It promises above that within the span the node's clock is below the fence, and that no
//! longer span has that promise.
#![tactic(auto)]

mod laws;
mod span;

pub use laws::{a_span_ends_before_the_fence, no_longer_span_is_covered};
pub use span::{MAX_FENCE, span_of};
