//! The rules of a running program: `node`, `arbiter` and `cluster`.
//!
//! A running program has some of the configuration's actors, which take turns. What comes to them, one thing after
//! another, is a history; the rules of the world say what each actor does then, and so what is kept, sent and written.
//! This crate defines the order in which things come, what a history amounts to, that the devices handed it in, what
//! its steps do to the devices, and how a run ends at each status: `IsRun` is the promise of whoever runs a plan. One
//! definition serves all three words, since they differ only in which actors run. It also defines the order of a served
//! run, to whose nodes commands come while it runs, and whose turns may end without a firing. Its code is a plan, and
//! where an actor of a configuration listens. It stands on the rules of the world, on the formats, and on what the
//! devices tell; it decides nothing and calls no device.
#![tactic(auto)]

mod address;
mod laws;
mod order;
mod orders;
mod plan;
mod stop_cause;

pub use address::{arbiter_address, node_address};
pub use laws::{
    a_bad_record_bars_a_run, a_frame_to_nobody_makes_no_datagram, a_resting_turn_does_nothing,
    a_run_of_a_plan_is_served, a_turn_in_order, nothing_comes_after_an_end, served_turns_in_order,
    what_has_come_leads_to_one_place,
};
pub use order::Order;
pub use orders::Orders;
pub use plan::Plan;
pub use stop_cause::StopCause;
