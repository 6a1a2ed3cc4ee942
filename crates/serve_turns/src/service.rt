ghost use Rattle.std.specs.Prelude.{◌≡◌, slice_get, Some};
ghost use Rattle.edge_io.specs.declared.endpoint.Endpoint.{Endpoint};
ghost use Rattle.door_lines.specs.Speakers.{is_parent};
ghost use Rattle.serve_rules.specs.Services.{IsService, actor_of, node_speaker, speaker_of};
ghost use Rattle.turn_rules.specs.Plans.{is_node_at};
ghost use Rattle.world_rules.specs.Schedules.{command_names};

use crate::live::Live;
use door_lines::Speaker;
use fabric_terms::{Command, FabricConfig};
use std::alloc::Global;
use turn_rules::Plan;
use world_rules::is_named;

/// What a served process goes by: a plan of one actor and no orders, and where its memory comes from.
#[derive(Drop)]
pub struct Service {
    pub alloc: Global,
    pub plan: Plan,
}

/// Who says a line of this client of a node.
fn node_speaker(parent: Option<u32>, client: u32) -> Speaker
    ensures { result ≡ node_speaker parent client }
{
    match parent {
        None => Speaker::NodeClient,
        Some(parent) if parent == client => Speaker::Parent,
        Some(_) => Speaker::ChildClient,
    }
}

impl Service {
    /// The configuration.
    pub fn config(&self) -> &FabricConfig
        ensures { result.now ≡ self.now.plan.config }
    {
        self.plan.config()
    }

    /// The number of its actor.
    pub fn actor(&self) -> u16
        requires { IsService self.now.plan }
        ensures { result ≡ actor_of self.now.plan }
    {
        self.plan.actor_at(0)
    }

    /// Whether its actor is a node.
    pub fn is_node(&self) -> bool
        requires { IsService self.now.plan }
        ensures { result ≡ is_node_at self.now.plan 0 }
    {
        self.plan.is_node_at(0)
    }

    /// Who says a line of this client, which decides what it may ask.
    pub fn speaker(&self, live: &Live, client: u32) -> Speaker
        requires { IsService self.now.plan }
        ensures { result ≡ speaker_of self.now.plan live.now.sessions client }
    {
        if self.is_node() {
            node_speaker(live.sessions.parent(), client)
        } else {
            Speaker::ArbiterClient
        }
    }

    /// Whether this client is the parent of the node.
    pub fn is_parent(&self, live: &Live, client: u32) -> bool
        requires { IsService self.now.plan }
        ensures { result ≡ is_parent (speaker_of self.now.plan live.now.sessions client) }
    {
        matches!(self.speaker(live, client), Speaker::Parent)
    }

    /// Whether the nodes that a command names are there.
    pub fn names(&self, command: &Command) -> bool
        requires { IsService self.now.plan }
        ensures { result ≡ command_names self.now.plan.config (actor_of self.now.plan) command.now }
    {
        is_named(self.config(), self.actor(), command)
    }
}
