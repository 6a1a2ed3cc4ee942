ghost use Rattle.std.specs.Prelude.{◌≡◌, ◌≤◌, ◌∷◌, ◌++◌, [], IfOk, find, length, map, min, option_map, take};
ghost use Rattle.std.specs.Prelude.{vec_capacity, vec_len};
ghost use Rattle.reconfig_phases.specs.Views.{reconfig_of};
ghost use Rattle.unit_manager.specs.Managers.{reconfigs_of};
ghost use Rattle.state_lines.specs.Changes.{is_change, most_timed_changes, seen_after, seen_now, since, ticks_of};

use node_core::NodeCore;
use reconfig_phases::Reconfig;
use ring_points::Epoch;
use std::alloc::{AllocError, Global};
use std::marker::Model;
use std::mem;

/// How many reconfigurations have their time counted: as many as a service declares partitions.
pub const MAX_TIMED_CHANGES: usize = 256;

/// A reconfiguration that is under way, and the reading at which it was first seen.
#[derive(Clone, Copy, Debug, PartialEq, Eq)]
pub struct SeenChange {
    pub partition: u16,
    /// The epoch of the configuration that is to come.
    pub epoch: Epoch,
    pub since: u64,
}

/// Since when the reconfigurations of a node have been seen: of the first 256 that are under way, by rising partition.
/// Contracts see their list.
#[derive(Drop)]
pub struct ChangeTimes {
    seen: Vec<SeenChange>,
    /// Those of the turn before; its room is for the next turn.
    before: Vec<SeenChange>,
}

impl Model for ChangeTimes {
    ghost use Rattle.std.specs.Prelude.{◌≤◌, List, vec_capacity};
    ghost use Rattle.state_lines.specs.declared.change_times.SeenChange.{SeenChange};
    ghost use Rattle.state_lines.specs.Changes.{most_timed_changes};

    ghost Value = { List SeenChange };

    ghost view = { λ t. t.seen.items };

    ghost invariant = { λ t. (most_timed_changes ≤ vec_capacity t.seen) ×
        (most_timed_changes ≤ vec_capacity t.before) };
}

impl ChangeTimes {
    /// Nothing has been seen. It takes the room for all that can be counted.
    pub fn new(alloc: Global) -> Result<ChangeTimes, AllocError>
        ensures { IfOk result (λ t. t ≡ []) }
    {
        Ok(ChangeTimes {
            seen: Vec::with_capacity(alloc, MAX_TIMED_CHANGES)?,
            before: Vec::with_capacity(alloc, MAX_TIMED_CHANGES)?,
        })
    }

    /// Sees the reconfigurations that the node has under way at this reading. It is called once a turn, and takes no
    /// memory. One that is over is forgotten.
    pub fn note(&mut self, core: &NodeCore, now: u64)
        ensures { self.new ≡ seen_after now core.now.state.above.managed.reconfigs self.old }
    {
        mem::swap(&mut self.seen, &mut self.before);
        put_seen(timed(core.reconfigs()), &self.before, now, &mut self.seen);
    }

    /// For how many ticks the reconfiguration has been seen at this reading; 0 where it has not been.
    pub fn ticks(&self, partition: u16, epoch: Epoch, now: u64) -> u64
        ensures { result ≡ ticks_of now partition epoch self.now }
    {
        match since(&self.seen, partition, epoch) {
            Some(since) => now.saturating_sub(since),
            None => 0,
        }
    }
}

/// The reading at which the reconfiguration was first seen, if it has been seen.
fn since(seen: &[SeenChange], partition: u16, epoch: Epoch) -> Option<u64>
    ensures { result ≡ since partition epoch seen.now }
{
    seen.iter()
        .find(|change| change.partition == partition && change.epoch == epoch)
        .map(|change| change.since)
}

/// The reconfiguration of a partition as it is seen at this reading, where these have been seen before.
fn seen_now(partition: u16, reconfig: &Reconfig, before: &[SeenChange], now: u64) -> SeenChange
    ensures { result ≡ seen_now now before.now (partition, reconfig_of reconfig.now) }
{
    let epoch = reconfig.task().epoch;
    SeenChange {
        partition,
        epoch,
        since: since(before, partition, epoch).unwrap_or(now),
    }
}

/// The reconfigurations whose time is counted.
fn timed(reconfigs: &[(u16, Reconfig)]) -> &[(u16, Reconfig)]
    ensures timed { reconfigs_of result.now ≡ take most_timed_changes (reconfigs_of reconfigs.now) }
    ensures few { length result.now ≤ most_timed_changes }
{
    &reconfigs[..MAX_TIMED_CHANGES.min(reconfigs.len())]
}

/// Puts these reconfigurations, as they are seen at this reading, in the place of what the list had.
fn put_seen(
    reconfigs: &[(u16, Reconfig)],
    before: &[SeenChange],
    now: u64,
    seen: &mut Vec<SeenChange>,
)
    requires few { length reconfigs.now ≤ most_timed_changes }
    requires room { most_timed_changes ≤ vec_capacity seen.old }
    ensures seen { seen.new.items ≡ map (seen_now now before.now) (reconfigs_of reconfigs.now) }
    ensures room { vec_capacity seen.new ≡ vec_capacity seen.old }
{
    seen.clear();
    for (partition, reconfig) in reconfigs {
        seen.push_reserved(seen_now(*partition, reconfig, before, now));
    }
}
