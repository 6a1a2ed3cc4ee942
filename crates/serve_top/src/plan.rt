ghost use Rattle.std.specs.Prelude.{◌≡◌, ◌∷◌, [], IfOk, option_map};
ghost use Rattle.fabric_terms.specs.Sound.{IsSound};
ghost use Rattle.serve_rules.specs.Services.{IsService, actor_of};
ghost use Rattle.serve_top.specs.Plans.{PlansFor, address_of, whole_of};

use crate::end::{End, short};
use edge_io::{Endpoint, SocketAddress};
use fabric_status::Status;
use fabric_terms::FabricConfig;
use ring_points::{ARBITRATORS, Who};
use service_file::Again;
use std::alloc::{AllocError, Global};
use turn_rules::{Orders, Plan, arbiter_address, node_address};
use world_rules::first_whole;

/// Who begins with the whole ring: the instance that line 2 names, or else instance 1 of the first node.
pub fn whole_of(config: &FabricConfig, again: Option<Again>) -> Who
    ensures { result ≡ whole_of config.now again }
{
    match again {
        Some(again) => Who {
            actor: again.node,
            instance: again.instance,
        },
        None => first_whole(config),
    }
}

/// Where the actor of a number is reached, if it is configured.
fn address_of(config: &FabricConfig, actor: u16) -> Option<&str>
    ensures { option_map (λ at. at.now) result ≡ address_of config.now actor }
{
    if actor > ARBITRATORS {
        arbiter_address(config, actor - ARBITRATORS)
    } else {
        node_address(config, actor)
    }
}

/// An actor with where it is reached.
fn endpoints(alloc: Global, actor: u16, at: &str) -> Result<Vec<Endpoint>, AllocError>
    ensures { IfOk result (λ v. v.items ≡ record { actor = actor; at = at.now } ∷ []) }
{
    let at = SocketAddress::new(String::from_str(alloc, at)?);
    let mut actors = Vec::new(alloc);
    actors.push(Endpoint { actor, at })?;
    Ok(actors)
}

/// The plan of a service: this actor alone, without commands, where `whole` is the instance that begins with the whole
/// ring. An actor that is not configured is none of line 1.
pub fn plan_of(alloc: Global, config: FabricConfig, whole: Who, actor: u16) -> Result<Plan, End>
    requires { IsSound config }
    ensures plan { PlansFor config whole actor result }
    ensures service { IfOk result IsService }
    ensures actor { IfOk result (λ p. actor_of p ≡ actor) }
{
    let Some(at) = address_of(&config, actor) else {
        return Err(End::As(Status::NoSuch(1)));
    };
    match endpoints(alloc, actor, at) {
        Ok(actors) => Ok(Plan::new(config, whole, actors, Orders::new(alloc), 0)),
        Err(_) => Err(short()),
    }
}
