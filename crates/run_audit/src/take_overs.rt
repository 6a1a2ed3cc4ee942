ghost use Rattle.std.specs.Prelude.{◌≡◌, ◌+◌, ◌≤◌, ◌<◌, ◌||◌, false, OnErr, OnOk, length};
ghost use Rattle.ring_points.specs.declared.who.Who.{Who};
ghost use Rattle.ring_points.specs.Whos.{same_who};
ghost use Rattle.fabric_terms.specs.Reports.{told_on, Told};
ghost use Rattle.fabric_terms.specs.TakeOvers.{tells_take_over, was_taken_over};
ghost use Rattle.run_audit.specs.Owners.{taken_at, taken_room};

use crate::owners::Instance;
use fabric_terms::{OutOfMemory, Report};
use indexmap::IndexMap;
use ring_points::Who;
use std::alloc::Global;

/// Who was taken over so far.
#[derive(Drop)]
pub struct TakeOvers {
    table: IndexMap<Instance, ()>,
}

impl TakeOvers {
    /// Nobody was taken over.
    pub fn new(alloc: Global) -> Self
        ensures { (v : Who) → taken_at v result ≡ false }
    {
        TakeOvers {
            table: IndexMap::new(alloc),
        }
    }

    /// Takes room for so many more.
    pub fn reserve(&mut self, more: usize) -> Result<(), OutOfMemory>
        ensures ok { OnOk result (more ≤ taken_room self.new) }
        ensures same { (v : Who) → taken_at v self.new ≡ taken_at v self.old }
        ensures full { OnErr result (taken_room self.old < more) }
    {
        match self.table.reserve(more) {
            Ok(()) => Ok(()),
            Err(_) => Err(OutOfMemory),
        }
    }

    /// Whether somebody told that it took over from this instance.
    pub fn has(&self, who: Who) -> bool
        ensures { result ≡ taken_at who self.now }
    {
        // In most runs nobody was taken over, and then no instance need be looked up.
        !self.table.is_empty() && self.table.contains_key(&Instance::new(who))
    }

    fn put(&mut self, victim: Who)
        requires { 0 < taken_room self.old }
        ensures put { (v : Who) → taken_at v self.new ≡ (same_who victim v || taken_at v self.old) }
        ensures room { taken_room self.old ≤ taken_room self.new + 1 }
    {
        let _kept = self.table.insert(Instance::new(victim), ());
    }

    /// Hears a report.
    fn hear_one(&mut self, report: &Report)
        requires { 0 < taken_room self.old }
        ensures heard { (v : Who) → taken_at v self.new ≡ (tells_take_over v report.now || taken_at v self.old) }
        ensures room { taken_room self.old ≤ taken_room self.new + 1 }
    {
        if let Report::TookOver(victim, _) = report {
            self.put(*victim);
        }
    }

    /// Hears what an actor reports, in order.
    pub fn hear(&mut self, who: Who, reports: &[Report])
        requires { length reports.now ≤ taken_room self.old }
        ensures { (t : Told) → ((v : Who) → taken_at v self.old ≡ was_taken_over v t) → (v : Who) →
            taken_at v self.new ≡ was_taken_over v (told_on who reports.now t) }
    {
        for report in reports {
            self.hear_one(report);
        }
    }
}
