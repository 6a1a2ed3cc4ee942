ghost use Rattle.std.specs.Prelude.{◌≡◌, IfOk};
ghost use Rattle.serve_top.specs.NodeFacts.{AreFacts, change_facts, link_facts, replica_facts};
ghost use Rattle.unit_manager.specs.Managers.{reconfigs_of};

use fabric_terms::OutOfMemory;
use node_core::NodeCore;
use reconfig_phases::Reconfig;
use ring_rules::Link;
use state_lines::ChangeTimes;
use status_page::{ChangeFact, LinkFact, NodeFacts, ReplicaFact};
use std::alloc::{AllocError, Global};

fn links_of(alloc: Global, slots: &[Option<Link>]) -> Result<Vec<LinkFact>, AllocError>
    ensures { IfOk result (λ v. v.items ≡ link_facts slots.now) }
{
    let mut facts = Vec::new(alloc);
    for slot in slots {
        if let Some(link) = slot {
            facts.push(LinkFact {
                peer: link.peer,
                state: link.state,
                length: link.len,
            })?;
        }
    }
    Ok(facts)
}

fn replicas_of(alloc: Global, core: &NodeCore) -> Result<Vec<ReplicaFact>, OutOfMemory>
    ensures { IfOk result (λ v. v.items ≡ replica_facts core.now.state.above.states) }
{
    let mut facts = Vec::new(alloc);
    for partition in &core.replica_partitions(alloc)? {
        if let Some(replica) = core.replica(*partition) {
            facts.push(ReplicaFact {
                partition: *partition,
                epoch: replica.promised(),
                role: replica.role(),
                last: replica.log().len() as u32,
            })?;
        }
    }
    Ok(facts)
}

fn changes_of(
    alloc: Global,
    reconfigs: &[(u16, Reconfig)],
    changes: &ChangeTimes,
    now: u64,
) -> Result<Vec<ChangeFact>, AllocError>
    ensures { IfOk result (λ v. v.items ≡ change_facts now changes.now (reconfigs_of reconfigs.now)) }
{
    let mut facts = Vec::new(alloc);
    for (partition, reconfig) in reconfigs {
        let epoch = reconfig.task().epoch;
        facts.push(ChangeFact {
            partition: *partition,
            epoch,
            ticks: changes.ticks(*partition, epoch, now),
        })?;
    }
    Ok(facts)
}

/// The state of a node at this reading, where these reconfigurations have been seen.
pub(crate) fn facts_of(
    alloc: Global,
    core: &NodeCore,
    changes: &ChangeTimes,
    now: u64,
) -> Result<NodeFacts, OutOfMemory>
    ensures { IfOk result (AreFacts core.now.settings core.now.state now changes.now) }
{
    Ok(NodeFacts {
        who: core.me(),
        reading: now,
        fence: core.fence(),
        owns: Vec::from_slice(alloc, core.ranges().intervals())?,
        up: Vec::from_slice(alloc, core.ring().up_nodes(now).as_slice())?,
        links: links_of(alloc, core.slots())?,
        replicas: replicas_of(alloc, core)?,
        changing: changes_of(alloc, core.reconfigs(), changes, now)?,
    })
}
