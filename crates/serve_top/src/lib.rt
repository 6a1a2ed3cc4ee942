//! What the program `fabricd` decides without a device: how it ends, what FILE says, and what its page shows.
//!
//! `End` is the one table of ends: the status of each and its last line. `read_setup` judges FILE as a start does,
//! `judge_beginning` says how the next instance begins, and `plan_of` makes the plan of one actor. `again_line` says
//! how a ring begins again whose folders are found so. `StatusBoard` answers the page between two turns, by what can
//! be seen of the process then and by a `Tally`, in which devices and policy count while it runs. `Replies` judges
//! what a client of the door reads. The crate stands on the readers of both lines, on the statuses of `fabric`, on
//! the lives of a process and on the page; it opens nothing.
#![tactic(auto)]

mod addresses;
mod again;
mod again_refusal;
mod ask;
mod beginning;
mod board;
mod clients;
mod commanders;
mod cut;
mod end;
mod file_lines;
mod found;
mod keeper;
mod links;
mod node_counts;
mod node_facts;
mod notices;
mod page;
mod plan;
mod policy;
mod setup;
mod stops;
mod tally;
mod texts;
mod worked;

pub use addresses::need_address;
pub use again::again_line;
pub use ask::{Replies, push_asked};
pub use beginning::{Begins, is_nothing, judge_beginning};
pub use board::{BoardDevices, BoardFacts, StatusBoard};
pub use clients::TalliedClients;
pub use end::{End, FolderFault, push_last_line};
pub use found::{found_at, found_by, read_actor};
pub use keeper::{NotedKeeper, Synced};
pub use links::TalliedLinks;
pub use plan::{plan_of, whole_of};
pub use policy::TalliedPolicy;
pub use setup::{Setup, judge_actor, read_setup};
pub use stops::{status_by, status_of};
pub use tally::Tally;
pub use texts::{FIRST_LINE, HELP, VERSION, VERSION_LINE};
pub use worked::{worked_again_words, worked_folders, worked_starts};
