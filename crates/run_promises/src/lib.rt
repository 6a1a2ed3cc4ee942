//! What is promised of a run, of the ring and of partitions, as definitions.
//!
//! `fabric_terms` says what it is for the ring to be safe, of what is seen of a run. Here stand the promises that also
//! speak of logs, of entries that an answer rests on, and of frames that arbitrators sent. That every valid run keeps
//! them is proved in `ring_safety`, `epoch_safety` and `write_safety`. So whoever states a promise needs none of their
//! proofs.
#![tactic(auto)]
