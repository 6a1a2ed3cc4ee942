//! How a node leaves: its primaries move, its points go, its links end.
use crate::known_world::{Said, World, led_by, led_by_two, managing, policy, word_of};
use fabric_steward::{Departure, Parting};
use std::process::Abort;
use std::test::Fail;

/// What the plan commands; nothing where it waits, and another command where the node is gone.
fn step(plan: &mut Departure, world: &World, now: u64) -> Said {
    match plan.advise(world, now) {
        Parting::Say(command) => word_of(&command),
        Parting::Wait(_) => Said::Nothing,
        Parting::Gone => Said::Other,
    }
}

fn commands(rt: &impl Abort, plan: &mut Departure, world: &World, now: u64, wanted: Said) {
    assert_eq!(rt; step(plan, world, now), wanted);
}

#[test]
fn a_manager_moves_gives_and_parts(rt: HostRuntime) -> Result<(), Fail> {
    let mut plan = Departure::new(policy(rt.alloc())?, 5000);
    let mut world = managing();
    world.config = led_by(3);
    commands(&rt, &mut plan, &world, 5000, Said::Swap(7, 1));
    world.is_changing = true;
    commands(&rt, &mut plan, &world, 5010, Said::Nothing);
    world.config = led_by(1);
    world.is_changing = false;
    commands(&rt, &mut plan, &world, 5020, Said::Give(1));
    commands(&rt, &mut plan, &world, 5269, Said::Nothing);
    commands(&rt, &mut plan, &world, 5270, Said::Give(1));
    world.owns = false;
    commands(&rt, &mut plan, &world, 5300, Said::Part(1));
    commands(&rt, &mut plan, &world, 5301, Said::Part(2));
    commands(&rt, &mut plan, &world, 5302, Said::Nothing);
    world.is_linked = false;
    commands(&rt, &mut plan, &world, 5303, Said::Other);
    Ok(())
}

#[test]
fn a_manager_leaves_a_majority_behind(rt: HostRuntime) -> Result<(), Fail> {
    let mut plan = Departure::new(policy(rt.alloc())?, 5000);
    let mut world = managing();
    world.config = led_by_two();
    commands(&rt, &mut plan, &world, 5000, Said::Heal(7, 3));
    world.is_changing = true;
    commands(&rt, &mut plan, &world, 5010, Said::Nothing);
    world.config = led_by(3);
    world.is_changing = false;
    commands(&rt, &mut plan, &world, 5020, Said::Nothing);
    commands(&rt, &mut plan, &world, 5250, Said::Swap(7, 1));
    Ok(())
}

#[test]
fn a_node_is_gone_after_a_lease(rt: HostRuntime) -> Result<(), Fail> {
    let mut plan = Departure::new(policy(rt.alloc())?, 5000);
    let mut world = managing();
    world.config = led_by(3);
    world.is_changing = true;
    commands(&rt, &mut plan, &world, 5000, Said::Nothing);
    commands(&rt, &mut plan, &world, 5499, Said::Nothing);
    commands(&rt, &mut plan, &world, 5500, Said::Give(1));
    commands(&rt, &mut plan, &world, 6000, Said::Other);
    Ok(())
}

#[test]
fn a_node_alone_is_gone_at_once(rt: HostRuntime) -> Result<(), Fail> {
    let mut plan = Departure::new(policy(rt.alloc())?, 5000);
    let mut world = managing();
    world.is_linked = false;
    commands(&rt, &mut plan, &world, 5000, Said::Other);
    Ok(())
}
