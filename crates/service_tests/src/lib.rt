//! Tests of the parts of the service: the test vectors of the keyed hash, what a seal opens and what it does not, that
//! the lines of a stream do not depend on the pieces in which it comes, and spans by hand. The refusals of the service
//! object, the checksum of a configuration, and the file `actor`. The lines of the door, read and spoilt, and which
//! report ends which answer. Doors, pages and logs in memory, the queue of the log, and when firings are due.
//!
//! What each call does is proved where it stands; here is what no clause says. The crate has no code of its own.
#![tactic(auto)]

#[cfg(test)]
mod actor_files;
#[cfg(test)]
mod answers;
#[cfg(test)]
mod doors;
#[cfg(test)]
mod ending;
#[cfg(test)]
mod logs;
#[cfg(test)]
mod paces;
#[cfg(test)]
mod page_doors;
#[cfg(test)]
mod requests;
#[cfg(test)]
mod seals;
#[cfg(test)]
mod service_lines;
#[cfg(test)]
mod small_config;
#[cfg(test)]
mod spans;
#[cfg(test)]
mod spoilt;
#[cfg(test)]
mod streams;
