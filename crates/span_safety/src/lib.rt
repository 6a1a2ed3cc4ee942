//! What a service may rely on while it counts the span of an answer `held`: its node holds the point, and it alone.
//!
//! The fence of an instance does not fall as long as all its links have the configured length: each step of the ring keeps
//! or raises the end of every lease that counts, and a new link begins with a whole lease. So an instance holds until an
//! earlier fence what it still owns then, and nobody takes over from it before, even if it gave points away, stopped or
//! left meanwhile. By the drift of clocks (`hold_span`) the span of another clock ends before that fence. This crate has
//! definitions and laws alone. It stands on the rules of the ring and on the law that no two instances hold one point.
#![tactic(auto)]

mod laws;

pub use laws::{
    a_shorter_link_lets_the_fence_fall, counted_instances_stay, counted_points_are_held,
    ended_instances_are_spared, lives_hold_counted_points, lives_hold_promised_points,
    lives_keep_counted_instances, promised_points_are_held, steps_keep_fences,
};
