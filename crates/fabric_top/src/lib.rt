//! The program's top call: the words say which command runs, and each command is one call below.
//!
//! The words are compared with the program's forms, and this comparison alone decides. Words that are a form are then
//! split by `clap`, whose only other answer is that memory is out. `node`, `arbiter` and `cluster` read their source
//! whole before anything is opened, kept or sent. The crate stands on the commands and on the devices' traits. Its
//! promise is the promise of the program: what is written is the report of the run that the rules define, each status
//! comes exactly where the words and the bytes say so, and the run of a schedule is safe: no two nodes ever hold one
//! point of the ring, who is taken over holds nothing any more, and every point stays where it is told to be; a
//! partition has at most one primary in an epoch, no node accepts a write of an older epoch than one that it promised,
//! committed writes stay, and answers about names rest on them. Of the steps of a cluster in one process, from empty
//! records, where it hears its own frames alone, it promises that no two nodes hold one point, that who is taken over
//! holds nothing any more, and the same of primaries, writes and answers.
#![tactic(auto)]

mod actors_command;
mod audit_command;
mod crew_run;
mod form;
mod forms;
mod generate_command;
mod laws;
mod read;
mod replay_command;
mod split;
mod top;
mod trace_command;
mod usage;
mod words;
mod worked;
mod writes_command;

pub use fabric_status::Status;
pub use laws::a_clusters_plan_is_read;
pub use top::fabric_main;
