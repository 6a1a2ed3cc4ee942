ghost use Rattle.ring_route.specs.Laws.{ChainsEnd};

/// A chain of hops, each strictly nearer to the key, meets no node twice.
pub fn chains_end()
    ensures { ChainsEnd }
{}
