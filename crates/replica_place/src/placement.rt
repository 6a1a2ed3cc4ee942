ghost use Rattle.std.specs.Prelude.{◌≡◌, ◌≤◌, Ok, Err, MatchResult};
ghost use Rattle.replica_place.specs.Placement.{placement};
ghost use Rattle.replica_place.specs.Choices.{PlacementIsAChoice, PlacementIsInOrder, NoChoiceCostsLess};

use crate::candidate::candidates;
use crate::load::NodeLoad;
use arrayvec::ArrayVec;
use ring_points::MAX_MEMBERS;

/// Fewer domains have an up node than nodes are to be placed: only this many.
#[derive(Clone, Copy, Debug, PartialEq, Eq)]
pub struct TooFewDomains(pub u8);

/// Where `count` replicas are placed: in each domain the up node of least load, then the `count` such
/// nodes of least load, ties to the lower number; in rising order of load, then number. `TooFewDomains`
/// comes exactly where fewer domains have an up node, with their number. No memory is taken.
pub fn place(nodes: &[NodeLoad], count: u8) -> Result<ArrayVec<u16, MAX_MEMBERS>, TooFewDomains>
    requires { count ≤ MAX_MEMBERS }
    ensures { MatchResult result
        (λ placed. placement nodes.now count ≡ Ok placed.items)
        (λ few. placement nodes.now count ≡ Err few) }
{
    let candidates = candidates(nodes);
    if candidates.len() < count as usize {
        return Err(TooFewDomains(candidates.len() as u8));
    }
    let mut placed = ArrayVec::new();
    for candidate in &candidates[..count as usize] {
        placed.push(candidate.node);
    }
    Ok(placed)
}

/// The placement is a choice of up nodes in distinct domains, in order, and no such choice costs less: a
/// law of the definition.
pub fn placement_is_a_cheapest_choice()
    ensures choice { PlacementIsAChoice }
    ensures in_order { PlacementIsInOrder }
    ensures cheapest { NoChoiceCostsLess }
{}
