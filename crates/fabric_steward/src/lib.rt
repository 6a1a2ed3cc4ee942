//! The policy of a served node: at most one command a turn, which joins the ring, looks for nodes, and keeps the
//! declared partitions whole; and the plan by which a node leaves.
//!
//! The policy is a function of what the node knows (the trait `Known`), of the reading, and of what it remembers. Each
//! of its rules has a definition and a function of one name. It stands on the terms of the fabric and on the settings
//! of the service, and knows no node's code. It promises that it gives exactly the command of the first rule that
//! applies: no command but joins, finds, links, creates and heals, of configured nodes and declared partitions, and two
//! for one partition at least a pause apart. No call takes memory but `new` of the policy.
#![tactic(auto)]

mod advice;
mod departure;
mod domains;
mod dues;
mod following;
mod greeting;
mod known;
mod laws;
mod leaving;
mod leaving_steps;
mod leaving_units;
mod linked;
mod node_watch;
mod noting;
mod observing;
mod roll_call;
mod rules;
mod steward;
mod times;
mod unit_watch;
mod worked;

pub use advice::{Advice, Deed};
pub use departure::Departure;
pub use greeting::MAX_GREETED;
pub use known::Known;
pub use laws::{
    a_departure_has_its_words, the_policy_gives_its_names, the_policy_gives_what_fits,
    the_policy_keeps_its_names, the_policy_pauses_between_commands,
};
pub use leaving::Parting;
pub use leaving_units::MIN_SPARED;
pub use linked::Linked;
pub use roll_call::RollCall;
pub use rules::MAX_AT_ONCE;
pub use steward::Steward;
pub use worked::{
    worked_joins, worked_learning, worked_management, worked_roll_call, worked_waiting,
};
