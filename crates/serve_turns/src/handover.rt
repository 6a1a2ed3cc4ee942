ghost use Rattle.std.specs.Prelude.{◌≡◌, ℕ, List, Option, true};
ghost use Rattle.group_commit.specs.Groups.{AllKept};

use edge_io::{Clock, Devices, Keeper, Links, Outside, Sink};
use fabric_terms::OutOfMemory;
use group_commit::{GroupDevices, GroupKeeper, Outgoing};
use turn_members::{Deed, Member};

/// The outside of a process whose actor may give something up, of which a parent must let go before the frames of the
/// step leave. No call changes what the devices tell.
pub trait Handover: Outside {
    /// The records of each actor that are synced, oldest first, where it tells.
    ghost synced: { Self → ℕ → Option (List (List ℕ)) };

    /// Takes in what the parent has sent by now. Its lines are taken in the turn of a reading that comes after.
    fn gather(&mut self)
        ensures { Self.told self.new ≡ Self.told self.old };

    /// The actor is about to make a step.
    fn see(&mut self, actor: &Member)
        ensures { Self.told self.new ≡ Self.told self.old };

    /// The records of the step are kept, and its frames come next. The parent owes a `done` for what it gives up, from
    /// now on, which is the turn of this reading, in ticks.
    fn hand_over(&mut self, deed: &Deed, now: u64) -> Result<(), OutOfMemory>
        ensures { Self.told self.new ≡ Self.told self.old };

    /// The parent has let go of what was given up by this number.
    fn let_go(&mut self, number: u64)
        ensures { Self.told self.new ≡ Self.told self.old };

    /// The process is about to rest. Devices that told a record as kept which is pending, or a frame as sent which
    /// waits, make it so. Says whether the process may rest: then each record that they told as kept is synced. Where a
    /// sync has failed, the process ends before it says anything more.
    fn settle(&mut self) -> bool
        ensures told { Self.told self.new ≡ Self.told self.old }
        ensures settled { result ≡ true → AllKept (synced self.new) (Self.told self.new).kept };
}

/// A process without a parent gives up what it gives up at once.
impl<'k, 'n, 'd, 'c, K: Sink, N: Links, D: Keeper, C: Clock> Handover
    for Devices<'k, 'n, 'd, 'c, K, N, D, C> {
    ghost synced = { λ d. D.kept d.keeps.now };

    fn gather(&mut self) {}

    fn see(&mut self, _actor: &Member) {}

    fn hand_over(&mut self, _deed: &Deed, _now: u64) -> Result<(), OutOfMemory> {
        Ok(())
    }

    fn let_go(&mut self, _number: u64) {}

    fn settle(&mut self) -> bool {
        true
    }
}

/// The same of a process that syncs the records of many steps by one call.
impl<'k, 'n, 'd, 'c, K: Sink, L: Outgoing, D: GroupKeeper, C: Clock> Handover
    for GroupDevices<'k, 'n, 'd, 'c, K, L, D, C> {
    ghost synced = { λ d. D.kept d.keeps.now };

    fn gather(&mut self) {}

    fn see(&mut self, _actor: &Member) {}

    fn hand_over(&mut self, _deed: &Deed, _now: u64) -> Result<(), OutOfMemory> {
        Ok(())
    }

    fn let_go(&mut self, _number: u64) {}

    fn settle(&mut self) -> bool {
        GroupDevices::settle(self)
    }
}
