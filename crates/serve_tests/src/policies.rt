//! What the policy does over some turns: it joins, learns, creates and heals, and waits in between.
use crate::known_world::{EPOCH, Said, World, led_by, managing, policy, turn};
use fabric_steward::Steward;
use fabric_terms::{Command, Reason, Report, Verb};
use ring_rules::Input;
use std::process::Abort;
use std::test::Fail;

/// Asserts what the policy commands in the turn of this reading.
fn commands(rt: &impl Abort, policy: &mut Steward, world: &World, now: u64, wanted: Said) {
    assert_eq!(rt; turn(policy, world, now), wanted);
}

/// The step of a heal that was refused.
fn refused(policy: &mut Steward, reason: Reason) {
    policy.note(
        &Input::Do(Command::Heal(7, 3)),
        &[Report::Refused(Verb::Heal, reason)],
    );
}

fn configured(policy: &mut Steward) {
    policy.note(&Input::Fire, &[Report::Configured(7, EPOCH)]);
}

/// A node that does not route and knows nobody else.
fn seeking() -> World {
    let mut world = managing();
    world.routes = false;
    world.manages = false;
    world
}

#[test]
fn joins_go_round_in_growing_pauses(rt: HostRuntime) -> Result<(), Fail> {
    let mut policy = policy(rt.alloc())?;
    let world = seeking();
    commands(&rt, &mut policy, &world, 0, Said::Join(1));
    commands(&rt, &mut policy, &world, 100, Said::Nothing);
    assert_eq!(rt; policy.due(100), 250);
    commands(&rt, &mut policy, &world, 250, Said::Join(2));
    commands(&rt, &mut policy, &world, 749, Said::Nothing);
    commands(&rt, &mut policy, &world, 750, Said::Join(1));
    assert_eq!(rt; policy.join_pause(), 2000);
    Ok(())
}

#[test]
fn a_manager_learns_creates_and_heals(rt: HostRuntime) -> Result<(), Fail> {
    let mut policy = policy(rt.alloc())?;
    let mut world = managing();
    commands(&rt, &mut policy, &world, 0, Said::Heal(7, 3));
    refused(&mut policy, Reason::NoUnit);
    commands(&rt, &mut policy, &world, 249, Said::Nothing);
    commands(&rt, &mut policy, &world, 250, Said::Create(7, 3));
    world.is_changing = true;
    commands(&rt, &mut policy, &world, 900, Said::Nothing);
    world.is_changing = false;
    world.config = led_by(1);
    configured(&mut policy);
    commands(&rt, &mut policy, &world, 1000, Said::Nothing);
    world.down = 1;
    commands(&rt, &mut policy, &world, 1500, Said::Find(1 << 60));
    commands(&rt, &mut policy, &world, 1501, Said::Link(1));
    commands(&rt, &mut policy, &world, 2499, Said::Nothing);
    commands(&rt, &mut policy, &world, 2500, Said::Find(1 << 60));
    commands(&rt, &mut policy, &world, 3499, Said::Nothing);
    Ok(())
}

#[test]
fn a_primary_that_is_down_is_healed(rt: HostRuntime) -> Result<(), Fail> {
    let mut policy = policy(rt.alloc())?;
    let mut world = managing();
    world.config = led_by(1);
    configured(&mut policy);
    commands(&rt, &mut policy, &world, 1000, Said::Nothing);
    world.down = 1;
    commands(&rt, &mut policy, &world, 1500, Said::Find(1 << 60));
    commands(&rt, &mut policy, &world, 1501, Said::Link(1));
    commands(&rt, &mut policy, &world, 2500, Said::Find(1 << 60));
    assert_eq!(rt; policy.due(2500), 2750);
    commands(&rt, &mut policy, &world, 3499, Said::Nothing);
    commands(&rt, &mut policy, &world, 3500, Said::Find(1 << 60));
    commands(&rt, &mut policy, &world, 3501, Said::Link(1));
    commands(&rt, &mut policy, &world, 3502, Said::Heal(7, 2));
    Ok(())
}

#[test]
fn refusals_double_the_pause_and_a_new_epoch_does_not(rt: HostRuntime) -> Result<(), Fail> {
    let mut policy = policy(rt.alloc())?;
    let world = managing();
    commands(&rt, &mut policy, &world, 0, Said::Heal(7, 3));
    policy.note(&Input::Fire, &[Report::Superseded(7, EPOCH)]);
    commands(&rt, &mut policy, &world, 249, Said::Nothing);
    commands(&rt, &mut policy, &world, 250, Said::Heal(7, 3));
    refused(&mut policy, Reason::Busy);
    commands(&rt, &mut policy, &world, 749, Said::Nothing);
    commands(&rt, &mut policy, &world, 750, Said::Heal(7, 3));
    refused(&mut policy, Reason::Busy);
    commands(&rt, &mut policy, &world, 1749, Said::Nothing);
    commands(&rt, &mut policy, &world, 1750, Said::Heal(7, 3));
    Ok(())
}

#[test]
fn to_cease_to_manage_forgets(rt: HostRuntime) -> Result<(), Fail> {
    let mut policy = policy(rt.alloc())?;
    let mut world = managing();
    configured(&mut policy);
    commands(&rt, &mut policy, &world, 0, Said::Nothing);
    world.manages = false;
    commands(&rt, &mut policy, &world, 100, Said::Find(0));
    commands(&rt, &mut policy, &world, 2099, Said::Nothing);
    world.manages = true;
    commands(&rt, &mut policy, &world, 2100, Said::Heal(7, 3));
    Ok(())
}

#[test]
fn a_lone_manager_asks_and_waits_before_it_places(rt: HostRuntime) -> Result<(), Fail> {
    let mut policy = policy(rt.alloc())?;
    let mut world = managing();
    world.down = 2;
    commands(&rt, &mut policy, &world, 0, Said::Find(2 << 60));
    commands(&rt, &mut policy, &world, 1, Said::Link(2));
    commands(&rt, &mut policy, &world, 999, Said::Nothing);
    commands(&rt, &mut policy, &world, 1000, Said::Find(2 << 60));
    assert_eq!(rt; policy.due(1000), 1750);
    commands(&rt, &mut policy, &world, 1749, Said::Nothing);
    commands(&rt, &mut policy, &world, 1750, Said::Heal(7, 2));
    policy.note(&Input::Fire, &[Report::Superseded(7, EPOCH)]);
    commands(&rt, &mut policy, &world, 1999, Said::Nothing);
    commands(&rt, &mut policy, &world, 2000, Said::Find(2 << 60));
    commands(&rt, &mut policy, &world, 2001, Said::Link(2));
    commands(&rt, &mut policy, &world, 2002, Said::Heal(7, 2));
    Ok(())
}

#[test]
fn a_node_that_answers_a_greeting_counts_at_once(rt: HostRuntime) -> Result<(), Fail> {
    let mut policy = policy(rt.alloc())?;
    let mut world = managing();
    world.down = 2;
    commands(&rt, &mut policy, &world, 0, Said::Find(2 << 60));
    commands(&rt, &mut policy, &world, 1, Said::Link(2));
    world.down = 0;
    commands(&rt, &mut policy, &world, 2, Said::Heal(7, 3));
    Ok(())
}
