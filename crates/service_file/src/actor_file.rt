ghost use Rattle.std.specs.Prelude.{◌≡◌};
ghost use Rattle.hex.specs.Hex.{encode_lower};
ghost use Rattle.text_fields.specs.Fields.{Gives};
ghost use Rattle.service_file.specs.declared.actor_file.ActorFileError.TheVariants.{Bad, OutOfMemory};
ghost use Rattle.service_file.specs.ActorFiles.{Takes, actor_file_of, again_at, agains_of};
ghost use Rattle.service_file.specs.ActorFiles.{began_at, checksum_at, head_at};

use crate::settings::Again;
use hex::{decode_to_slice, encode_to_slice};
use ring_points::MAX_COUNTER;
use std::alloc::{AllocError, AllocFailed, Global};
use std::marker::Model;
use text_fields::{BadField, actor_word, after_word, node_at, number_in};
use thiserror::Error;

/// The instances that were allowed to begin with the whole ring again, in the order of the file. Contracts see them as
/// their list.
#[derive(Drop)]
pub struct Agains {
    entries: Vec<Again>,
}

impl Model for Agains {
    ghost use Rattle.std.specs.Prelude.{List};
    ghost use Rattle.service_file.specs.declared.settings.Again.{Again};

    ghost Value = { List Again };

    ghost view = { λ a. a.entries.items };
}

impl Agains {
    pub fn new(entries: Vec<Again>) -> Self
        ensures { result ≡ entries.items }
    {
        Agains { entries }
    }

    pub fn as_slice(&self) -> &[Again]
        ensures { result.now ≡ self.now }
    {
        self.entries.as_slice()
    }
}

/// What the file `actor` of a folder says.
#[derive(Drop)]
pub struct ActorFile {
    /// The one actor of the folder.
    pub actor: u16,
    /// The checksum of its configuration.
    pub checksum: [u8; 32],
    /// Whether a record of the actor was synced.
    pub has_begun: bool,
    pub again: Agains,
}

/// Why a file `actor` is not read.
#[derive(Clone, Copy, Debug, PartialEq, Eq, Error)]
pub enum ActorFileError {
    /// The bytes are not of the grammar of the file.
    #[error("the file is not of its grammar")]
    Bad,
    /// There was not enough memory. It may come in place of any other answer.
    #[error("out of memory")]
    OutOfMemory,
}

impl From<BadField> for ActorFileError {
    ghost from_gives = { λ _ e. e ≡ Bad };

    fn from(_error: BadField) -> ActorFileError {
        ActorFileError::Bad
    }
}

impl From<AllocError> for ActorFileError {
    ghost from_gives = { λ _ e. e ≡ OutOfMemory };

    fn from(_error: AllocError) -> ActorFileError {
        ActorFileError::OutOfMemory
    }
}

impl<T: Drop> From<AllocFailed<T>> for ActorFileError {
    ghost from_gives = { λ _ e. e ≡ OutOfMemory };

    fn from(_error: AllocFailed<T>) -> ActorFileError {
        ActorFileError::OutOfMemory
    }
}

/// The digits in which a checksum is written.
pub fn digits_of(checksum: &[u8; 32]) -> [u8; 64]
    ensures { result ≡ encode_lower checksum.now }
{
    let mut digits = [0; 64];
    match encode_to_slice(checksum, &mut digits) {
        Ok(()) => digits,
        Err(_) => unreachable!(),
    }
}

/// The bytes of 64 digits, each as it is written, and what follows them.
#[tactic(auto, unfolding(crate::specs::ActorFiles::checksum_at))]
fn checksum_at(bytes: &[u8]) -> Result<([u8; 32], &[u8]), BadField>
    ensures { Gives (λ x. (x.0, x.1.now)) result (checksum_at bytes.now) }
{
    if bytes.len() < 64 {
        return Err(BadField);
    }
    let (digits, rest) = bytes.split_at(64);
    let mut checksum = [0; 32];
    if decode_to_slice(digits, &mut checksum).is_err()
        || digits_of(&checksum).as_slice() != digits
    {
        return Err(BadField);
    }
    Ok((checksum, rest))
}

/// The first line, and what follows it.
#[tactic(auto, unfolding(crate::specs::ActorFiles::head_at))]
fn head_at(bytes: &[u8]) -> Result<((u16, [u8; 32]), &[u8]), BadField>
    ensures { Gives (λ x. (x.0, x.1.now)) result (head_at bytes.now) }
{
    let (actor, rest) = actor_word(after_word(b"fabricd 1 ", bytes)?)?;
    let (checksum, rest) = checksum_at(rest)?;
    Ok(((actor, checksum), after_word(b"\n", rest)?))
}

/// Whether the line `began` is at the front, and what follows it.
fn began_at(bytes: &[u8]) -> (bool, &[u8])
    ensures { began_at bytes.now ≡ Some (result.0, result.1.now) }
{
    match after_word(b"began\n", bytes) {
        Ok(rest) => (true, rest),
        Err(_) => (false, bytes),
    }
}

/// A line `again`, and what follows it.
#[tactic(auto, unfolding(crate::specs::ActorFiles::again_at))]
fn again_at(bytes: &[u8]) -> Result<(Again, &[u8]), BadField>
    ensures { Gives (λ x. (x.0, x.1.now)) result (again_at bytes.now) }
{
    let (node, rest) = node_at(after_word(b"again ", bytes)?)?;
    let (instance, rest) = number_in(2, MAX_COUNTER, after_word(b".", rest)?)?;
    let instance = instance as u32;
    Ok((Again { node, instance }, after_word(b"\n", rest)?))
}

/// The lines `again` up to the end.
fn agains_of(alloc: Global, bytes: &[u8]) -> Result<Agains, ActorFileError>
    ensures { Takes (agains_of bytes.now) result }
{
    let mut entries = Vec::new(alloc);
    let mut rest = bytes;
    while !rest.is_empty() {
        let (again, more) = again_at(rest)?;
        entries.push(again)?;
        rest = more;
    }
    Ok(Agains::new(entries))
}

/// What the bytes of the file say.
#[tactic(auto, unfolding(crate::specs::ActorFiles::actor_file_of))]
pub fn read_actor_file(alloc: Global, bytes: &[u8]) -> Result<ActorFile, ActorFileError>
    ensures { Takes (actor_file_of bytes.now) result }
{
    let ((actor, checksum), rest) = head_at(bytes)?;
    let (has_begun, rest) = began_at(rest);
    Ok(ActorFile {
        actor,
        checksum,
        has_begun,
        again: agains_of(alloc, rest)?,
    })
}
