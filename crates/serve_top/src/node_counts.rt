// How many links and replicas of a node are in each state, and the numbers of its partitions.
ghost use Rattle.std.specs.Prelude.{◌≡◌, IfOk, flat_map, map};
ghost use Rattle.serve_top.specs.Counts.{change_gauge, counts_of_links, counts_of_roles, entry_gauge};
ghost use Rattle.serve_top.specs.Counts;
ghost use Rattle.status_page.specs.Counters.{counted_at};

use replica_core::Role;
use ring_rules::LinkState;
use status_page::{ChangeFact, LINK_STATES, LinkFact, PartitionGauge, ROLES, ReplicaFact};
use std::alloc::{AllocError, Global};

/// The place of a state of a link in their order.
fn state_place(state: LinkState) -> usize
    ensures { result ≡ Counts.state_place state }
{
    match state {
        LinkState::Hello => 0,
        LinkState::Offered => 1,
        LinkState::Bound => 2,
        LinkState::Parting => 3,
        LinkState::Accused => 4,
        LinkState::Discharged => 5,
        LinkState::Heir => 6,
    }
}

/// The place of a role in their order.
fn role_place(role: Role) -> usize
    ensures { result ≡ Counts.role_place role }
{
    match role {
        Role::None => 0,
        Role::IdleSecondary => 1,
        Role::ActiveSecondary => 2,
        Role::Primary => 3,
    }
}

/// One more at this place; a place that is not there changes nothing.
fn count_at(counts: &mut [u64], place: usize)
    ensures { counts.new ≡ counted_at counts.old place }
{
    if place < counts.len() {
        counts[place] = counts[place].saturating_add(1);
    }
}

/// How many links are in each state.
pub(crate) fn counts_of_links(links: &[LinkFact]) -> [u64; LINK_STATES]
    ensures { result ≡ counts_of_links links.now }
{
    let mut counts = [0; LINK_STATES];
    for link in links {
        count_at(&mut counts, state_place(link.state));
    }
    counts
}

/// How many replicas are in each role.
pub(crate) fn counts_of_roles(replicas: &[ReplicaFact]) -> [u64; ROLES]
    ensures { result ≡ counts_of_roles replicas.now }
{
    let mut counts = [0; ROLES];
    for replica in replicas {
        count_at(&mut counts, role_place(replica.role));
    }
    counts
}

/// The reconfigurations that are under way, each with its time, as gauges.
pub(crate) fn change_gauges(
    alloc: Global,
    facts: &[ChangeFact],
) -> Result<Vec<PartitionGauge>, AllocError>
    ensures { IfOk result (λ v. v.items ≡ map change_gauge facts.now) }
{
    let mut gauges = Vec::new(alloc);
    for fact in facts {
        gauges.push(PartitionGauge {
            partition: fact.partition,
            number: fact.ticks,
        })?;
    }
    Ok(gauges)
}

/// The entries of the own logs of these declared partitions, as gauges.
pub(crate) fn entry_gauges(
    alloc: Global,
    facts: &[ReplicaFact],
    declared: &[u16],
) -> Result<Vec<PartitionGauge>, AllocError>
    ensures { IfOk result (λ v. v.items ≡ flat_map (entry_gauge declared.now) facts.now) }
{
    let mut gauges = Vec::new(alloc);
    for fact in facts {
        if declared.contains(&fact.partition) {
            gauges.push(PartitionGauge {
                partition: fact.partition,
                number: u64::from(fact.last),
            })?;
        }
    }
    Ok(gauges)
}
