// Whether the members of a configuration were there when it was made.
ghost use Rattle.std.specs.Prelude.{◌≡◌};
ghost use Rattle.fabric_steward.specs.RollCalls.{has_unheard, instance_in, instances_heard, is_missed, is_unheard, roll_seen};

use crate::known::Known;
use crate::times::later;
use ring_points::Who;

/// Whether each member of a configuration was heard since it became known. A member that was heard before alone may have
/// ended before it had the log of the epoch.
#[derive(Clone, Copy)]
pub enum RollCall {
    /// The configuration is not known yet.
    NotBegun,
    /// It became known at this reading. The members' instances that were heard last until then have this sum.
    Begun { since: u64, instances: u64 },
    /// Each member was heard since then, in the instance of before.
    Whole,
}

fn instance_in(heard: Option<Who>) -> u64
    ensures { result ≡ instance_in heard }
{
    match heard {
        None => 0,
        Some(who) => u64::from(who.instance),
    }
}

/// The sum of the instances of these nodes that were heard last. It ends at the greatest number.
fn instances_heard<K: Known>(known: &K, nodes: &[u16]) -> u64
    ensures { result ≡ instances_heard (K.facts known.now) nodes.now 0 }
{
    let mut sum = 0;
    for node in nodes {
        sum = later(sum, instance_in(known.heard(*node, 0)));
    }
    sum
}

/// Whether a node was heard, but not since this reading. A node never hears itself.
fn is_unheard<K: Known>(known: &K, since: u64, node: u16) -> bool
    ensures { result ≡ is_unheard (K.facts known.now) since node }
{
    known.heard(node, 0).is_some() && known.heard(node, since).is_none()
}

fn has_unheard<K: Known>(known: &K, since: u64, nodes: &[u16]) -> bool
    ensures { result ≡ has_unheard (K.facts known.now) since nodes.now }
{
    nodes.iter().any(|node| is_unheard(known, since, *node))
}

impl RollCall {
    /// What is known at this reading, where the configuration has these members.
    pub(crate) fn seen<K: Known>(self, known: &K, now: u64, members: &[u16]) -> RollCall
        ensures { result ≡ roll_seen (K.facts known.now) now members.now self }
    {
        match self {
            RollCall::NotBegun => RollCall::Begun {
                since: now,
                instances: instances_heard(known, members),
            },
            RollCall::Begun { since, instances } => {
                if instances_heard(known, members) == instances
                    && !has_unheard(known, since, members)
                {
                    RollCall::Whole
                } else {
                    self
                }
            }
            RollCall::Whole => RollCall::Whole,
        }
    }

    /// Whether a member was heard in a later instance before all were heard.
    pub(crate) fn is_missed<K: Known>(self, known: &K, members: &[u16]) -> bool
        ensures { result ≡ is_missed (K.facts known.now) members.now self }
    {
        match self {
            RollCall::Begun { instances, .. } => instances < instances_heard(known, members),
            _ => false,
        }
    }
}
