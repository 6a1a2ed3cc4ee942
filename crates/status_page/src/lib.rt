//! The page of a served process: what a request wants, the numbers and the state that it shows, and whole answers.
//!
//! `request_of` says what a client wants by as much of its head as has come, `answer_for` how it is answered, and four
//! calls write the whole answer in HTTP/1.0. The process counts in `Counters` as it goes on, and sets the gauges of
//! `Counts` before it answers. This layer reads no device and decides nothing of the actor. It stands on the words of
//! the door, on the fields of lines, and on a parser of heads. It promises that a head within the limits is answered
//! for what it says, that the page waits only where no head has come, and that each answer is the defined text.
#![tactic(auto)]

mod answer;
mod array;
mod counters;
mod counts;
mod entries;
mod family;
mod kinds;
mod limits;
mod metrics;
mod request;
mod sample;
mod share;
mod state;
mod wanted;
mod words;

pub use answer::{
    Answer, Plain, answer_for, arbiter_answer, metrics_answer, node_answer, plain_answer,
};
pub use array::Entry;
pub use counters::{Asker, Counters, Junk};
pub use counts::{Counts, LINK_STATES, PartitionGauge, ROLES};
pub use kinds::KINDS;
pub use limits::MAX_FIELDS;
pub use request::request_of;
pub use share::share_of;
pub use state::{ChangeFact, DoorFacts, LinkFact, NodeFacts, ReplicaFact};
pub use wanted::Wanted;
