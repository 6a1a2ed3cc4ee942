//! What several crates rest on: facts about lists and maps that are no part of the fabric.
//!
//! A map from numbers is defined as the list of its entries, rising by number, so that two maps with the
//! same entries are equal and what is said of a map computes. The lemmas say what a change leaves, that
//! a table kept in order of insertion is such a map, and that a list has one order only. No code stands
//! here.
#![tactic(auto)]
