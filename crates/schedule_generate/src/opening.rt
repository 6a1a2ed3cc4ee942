// How a generated schedule begins.
ghost use Rattle.std.specs.Prelude.{◌≡◌, ◌++◌, ◌-◌, ◌≤◌, map, IfOk, OnOk};
ghost use Rattle.schedule_generate.specs.Course.{arbiter_starts, asks_first, node_starts, opening};
ghost use Rattle.schedule_generate.specs.Moves.{events_for};
ghost use Rattle.schedule_generate.specs.Settings.{most_generated_nodes, numbers_from};

use crate::moves::Move;
use fabric_terms::OutOfMemory;
use ring_points::ARBITRATORS;
use std::alloc::Global;

fn push_arbiters(moves: &mut Vec<Move>) -> Result<(), OutOfMemory>
    ensures { OnOk result (events_for moves.new.items ≡ events_for moves.old.items ++ map arbiter_starts
        (numbers_from 1 3)) }
{
    for arbiter in 0..3u16 {
        moves.push(Move::Start(ARBITRATORS + arbiter + 1, None))?;
    }
    Ok(())
}

fn push_nodes(moves: &mut Vec<Move>, nodes: u16) -> Result<(), OutOfMemory>
    requires { nodes ≤ most_generated_nodes }
    ensures { OnOk result (events_for moves.new.items ≡ events_for moves.old.items ++ map node_starts
        (numbers_from 1 nodes)) }
{
    for node in 0..nodes {
        moves.push(Move::Start(node + 1, Some(0)))?;
    }
    Ok(())
}

/// Each but the first asks the first one for a link.
fn push_links(moves: &mut Vec<Move>, nodes: u16) -> Result<(), OutOfMemory>
    requires some { 1 ≤ nodes }
    requires few { nodes ≤ most_generated_nodes }
    ensures { OnOk result (events_for moves.new.items ≡ events_for moves.old.items ++ map asks_first
        (numbers_from 2 (nodes - 1))) }
{
    for node in 0..nodes - 1 {
        moves.push(Move::Link(node + 2, 1))?;
    }
    Ok(())
}

/// The arbitrators start, then the nodes, and then links are asked for.
pub fn opening_moves(alloc: Global, nodes: u16) -> Result<Vec<Move>, OutOfMemory>
    requires some { 1 ≤ nodes }
    requires few { nodes ≤ most_generated_nodes }
    ensures { IfOk result (λ moves. events_for moves.items ≡ opening nodes) }
{
    let mut moves = Vec::new(alloc);
    push_arbiters(&mut moves)?;
    push_nodes(&mut moves, nodes)?;
    push_links(&mut moves, nodes)?;
    Ok(moves)
}
