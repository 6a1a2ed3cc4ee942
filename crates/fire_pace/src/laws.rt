// How far apart firings are, whatever came.
ghost use Rattle.std.specs.Prelude.{◌≤◌, ◌+◌, ◌/◌, ℕ, List, IfSome};
ghost use Rattle.ring_points.specs.Limits.{least_lease};
ghost use Rattle.fire_pace.specs.News.{Step};
ghost use Rattle.fire_pace.specs.Pace.{due_after, last_firing, pace};

/// A firing is due at least a pace and at most an eighth of the lease after the last one.
#[tactic(auto, using(crate::proofs::Bounds::due_within))]
pub fn firings_keep_their_bounds()
    ensures { (steps : List Step) (lease left : ℕ) → least_lease ≤ lease → left ≤ lease →
        IfSome (last_firing steps) (λ last. (last + pace lease ≤ due_after steps lease left)
        × (due_after steps lease left ≤ last + lease / 8)) }
{}
