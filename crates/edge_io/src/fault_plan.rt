ghost use Rattle.std.specs.Prelude.{◌≡◌, ◌≤◌, ◌%◌, ◌↔◌, IsTrue};
ghost use Rattle.std.specs.Bool.{OnTrue};
ghost use Rattle.edge_io.specs.Edge.{HasRisen};
ghost use Rattle.edge_io.specs.Plan.{fresh_faults, next_fails, faults_after};

use std::marker::Model;

/// How a device in memory fails: at the calls whose numbers, from 1 over the device, are listed.
#[derive(Drop)]
pub struct FaultPlan {
    calls: u64,
    fail: Vec<u64>,
    failed: u64,
}

impl Model for FaultPlan {
    ghost use Rattle.edge_io.specs.Plan.{Faults};

    ghost Value = { Faults };

    ghost view = { λ a. record { plan = record { calls = a.calls; fail = a.fail.items }; faults = a.failed } };
}

impl FaultPlan {
    /// The calls of these numbers are to fail.
    pub fn new(fail: Vec<u64>) -> Self
        ensures { result ≡ fresh_faults fail.items }
    {
        FaultPlan {
            calls: 0,
            fail,
            failed: 0,
        }
    }

    /// Counts the device's next call, and says whether it fails.
    #[tactic(auto, using(crate::proofs::Counts::counted_risen))]
    pub fn next_fails(&mut self) -> bool
        ensures answer { result ≡ next_fails self.old.plan }
        ensures counted { self.new ≡ faults_after self.old }
        ensures later { self.old.faults ≤ self.new.faults }
        ensures risen { OnTrue result (HasRisen self.old.faults self.new.faults) }
    {
        self.calls = self.calls.saturating_add(1);
        let fails = self.fail.contains(&self.calls);
        if fails {
            self.failed = self.failed.saturating_add(1);
        }
        fails
    }

    /// Whether the number of the last call is even.
    pub fn last_is_even(&self) -> bool
        ensures { IsTrue result ↔ (self.now.plan.calls % 2 ≡ 0) }
    {
        self.calls % 2 == 0
    }
}
