//! The service object, the checksum of a configuration, and the file `actor` of a folder.
//!
//! Line 2 of FILE says what the service `fabricd` does beside its configuration: `read_service` answers its settings,
//! or the first check that fails in the order of the fields' table. `checksum_of` hashes everything of a configuration
//! but its addresses. The file `actor` says which actor a folder has, by which configuration, whether it has begun, and for
//! which instances the ring was allowed to begin again; `begins_by` decides by it how a start goes on. This crate
//! promises above that what it reads is sound, that equal texts have equal configurations but for addresses, and
//! that the file `actor` is read exactly where it is spelled as it would be written.
#![tactic(auto)]

mod actor_file;
mod actor_lines;
mod beginning;
mod checksum;
mod entries;
mod error;
mod field;
mod keys;
mod laws;
mod limits;
mod numbers;
mod partitions;
mod read;
mod settings;
mod worked;

pub use actor_file::{ActorFile, ActorFileError, Agains, read_actor_file};
pub use actor_lines::{again_line, began_line, head_line};
pub use beginning::{Beginning, begins_by};
pub use checksum::checksum_of;
pub use error::ServiceError;
pub use field::ServiceField;
pub use laws::{
    actor_files_have_one_text, no_instance_begins_anew_twice, texts_have_no_addresses,
    texts_know_everything_but_addresses, what_is_read_is_sound,
};
pub use limits::MAX_DECLARED;
pub use read::read_service;
pub use settings::{Again, Declared, DeclaredList, Joins, LineChoice, ServiceSettings};
pub use worked::{worked_beginnings, worked_lines};
