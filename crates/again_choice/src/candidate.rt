ghost use Rattle.std.specs.Prelude.{◌≡◌, ◌<◌, IfSome};
ghost use Rattle.again_choice.specs.Candidates.{beats, better, can_begin, candidate_of, entries_in, entries_with};
ghost use Rattle.again_choice.specs.Candidates.{best_of, later, promised_in};

use crate::folder::{Folder, Found};
use replica_core::Replica;
use ring_points::{ARBITRATORS, Epoch, MAX_COUNTER};

/// A node that can begin with the whole ring: its last instance, the greatest epoch that its replicas promised, and how
/// many entries they have.
#[derive(Clone, Copy, Debug, PartialEq, Eq)]
pub struct Candidate {
    pub node: u16,
    pub last: u32,
    pub promised: Epoch,
    pub entries: u64,
}

fn later(a: Epoch, b: Epoch) -> Epoch
    ensures { result ≡ later a b }
{
    if a < b { b } else { a }
}

fn promised_in(replicas: &[Replica]) -> Epoch
    ensures { result ≡ promised_in replicas.now }
{
    let first = Epoch {
        data_loss: 0,
        configuration: 0,
    };
    replicas
        .iter()
        .fold(first, |epoch, replica| later(epoch, replica.promised()))
}

fn entries_with(count: u64, replica: &Replica) -> u64
    ensures { result ≡ entries_with count replica.now }
{
    count.saturating_add(replica.log().len() as u64)
}

fn entries_in(replicas: &[Replica]) -> u64
    ensures { result ≡ entries_in replicas.now }
{
    replicas
        .iter()
        .fold(0, |count, replica| entries_with(count, replica))
}

/// Whether the folder is of a node that has begun and has numbers left.
fn can_begin(folder: &Folder) -> bool
    ensures { result ≡ can_begin folder.now }
{
    let last = u64::from(folder.kept.boots);
    folder.file.actor <= ARBITRATORS && 1 <= last && last < MAX_COUNTER
}

fn candidate_of(folder: &Folder) -> Candidate
    ensures { result ≡ candidate_of folder.now }
{
    let replicas = folder.kept.replicas.as_slice();
    Candidate {
        node: folder.file.actor,
        last: folder.kept.boots,
        promised: promised_in(replicas),
        entries: entries_in(replicas),
    }
}

/// Whether the first is to begin rather than the second.
fn beats(first: Candidate, second: Candidate) -> bool
    ensures { result ≡ beats first second }
{
    if first.promised != second.promised {
        return second.promised < first.promised;
    }
    if first.entries != second.entries {
        return second.entries < first.entries;
    }
    first.node < second.node
}

fn better(best: Option<Candidate>, found: &Found) -> Option<Candidate>
    ensures { result ≡ better best found.now }
{
    let Found::Read(folder) = found else {
        return best;
    };
    if !can_begin(folder) {
        return best;
    }
    let candidate = candidate_of(folder);
    match best {
        Some(before) if !beats(candidate, before) => best,
        _ => Some(candidate),
    }
}

fn best_in(folders: &[Found]) -> Option<Candidate>
    ensures { result ≡ best_of folders.now }
{
    folders.iter().fold(None, |best, found| better(best, found))
}

/// The node that is to begin with the whole ring. It has a number left.
pub fn best_of(folders: &[Found]) -> Option<Candidate>
    ensures best { result ≡ best_of folders.now }
    ensures left { IfSome result (λ best. best.last < MAX_COUNTER) }
{
    best_in(folders)
}
