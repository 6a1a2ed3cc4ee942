ghost use Rattle.std.specs.Prelude.{◌≡◌};

use crate::orders::Orders;
use edge_io::Endpoint;
use fabric_terms::FabricConfig;
use ring_points::{ARBITRATORS, Who};
use std::marker::Model;

/// What a run goes by: the configuration, the instance that begins with the whole ring, the actors that run, in the order
/// of their turns, each with its endpoint, the commands, and how many turns there are.
#[derive(Drop)]
pub struct Plan {
    config: FabricConfig,
    whole: Who,
    actors: Vec<Endpoint>,
    orders: Orders,
    turns: u64,
}

impl Model for Plan {
    ghost use Rattle.turn_rules.specs.Plans.{Plan};

    ghost Value = { Plan };

    ghost view = { λ p. record {
      config = p.config;
      whole = p.whole;
      actors = p.actors.items;
      orders = p.orders;
      turns = p.turns;
    } };
}

impl Plan {
    ghost use Rattle.turn_rules.specs.Plans.{is_node_at};
    ghost use Rattle.std.specs.Prelude.{◌<◌, length, slice_get, Some};
    ghost use Rattle.edge_io.specs.declared.endpoint.Endpoint.{Endpoint as EndpointOf};

    /// A plan of these.
    pub fn new(
        config: FabricConfig,
        whole: Who,
        actors: Vec<Endpoint>,
        orders: Orders,
        turns: u64,
    ) -> Self
        ensures { result ≡ record { config = config; whole = whole; actors = actors.items; orders = orders; turns = turns } }
    {
        Plan {
            config,
            whole,
            actors,
            orders,
            turns,
        }
    }

    /// The configuration.
    pub fn config(&self) -> &FabricConfig
        ensures { result.now ≡ self.now.config }
    {
        &self.config
    }

    /// The instance that begins with the whole ring. Every other one begins with nothing.
    pub fn whole(&self) -> Who
        ensures { result ≡ self.now.whole }
    {
        self.whole
    }

    /// Whether the actor at a place is a node.
    pub fn is_node_at(&self, place: usize) -> bool
        requires { place < length self.now.actors }
        ensures { result ≡ is_node_at self.now place }
    {
        self.actors[place].actor <= ARBITRATORS
    }

    /// The number of the actor at a place.
    pub fn actor_at(&self, place: usize) -> u16
        requires { place < length self.now.actors }
        ensures { (e : EndpointOf) × ((slice_get self.now.actors place ≡ Some e) × (result ≡ e.actor)) }
    {
        self.actors[place].actor
    }

    /// The address of the actor at a place.
    pub fn address_at(&self, place: usize) -> &str
        requires { place < length self.now.actors }
        ensures { (e : EndpointOf) × ((slice_get self.now.actors place ≡ Some e) × (result.now ≡ e.at)) }
    {
        self.actors[place].at.as_str()
    }

    /// How many actors there are.
    pub fn len(&self) -> usize
        ensures { result ≡ length self.now.actors }
    {
        self.actors.len()
    }

    /// How many turns each has.
    pub fn turns(&self) -> u64
        ensures { result ≡ self.now.turns }
    {
        self.turns
    }

    /// The commands, in their order.
    pub fn orders(&self) -> &Orders
        ensures { result.now ≡ self.now.orders }
    {
        &self.orders
    }
}
