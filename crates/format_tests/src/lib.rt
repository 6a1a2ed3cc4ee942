//! Tests of the formats: frames, configurations and records as bytes that were written down by hand, frames that are
//! kept as bytes, and fields, lines of a schedule, of a report and of places as text.
//!
//! That reading and writing are each other's inverse is proved where they stand; here is that the bytes are the ones
//! which the documents show, that each public call succeeds on its happy path, each kind of refusal once, and what
//! happens where memory is short. The crate has no code of its own.
#![tactic(auto)]

#[cfg(test)]
mod bags;
#[cfg(test)]
mod config_errors;
#[cfg(test)]
mod configurations;
#[cfg(test)]
mod events;
#[cfg(test)]
mod fields;
#[cfg(test)]
mod frame_fields;
#[cfg(test)]
mod frames;
#[cfg(test)]
mod lines_of_reports;
#[cfg(test)]
mod pieces;
#[cfg(test)]
mod places;
#[cfg(test)]
mod record_bytes;
#[cfg(test)]
mod records;
#[cfg(test)]
mod reports;
