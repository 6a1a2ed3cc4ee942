ghost use Rattle.run_facts.specs.Laws.{ClocksAreOfRunning, InstancesAreCounted, LastOwnIsHeld, LeaveIsTold};
ghost use Rattle.run_facts.specs.Laws.{RecordsGrow, TableIsKept};

use world_rules::Above;

/// In every run, the last ranges and fence that a running instance told are those of its ring.
pub fn last_own_is_held<A: Above>()
    ensures { LastOwnIsHeld A.upper }
{}

/// In every run, a running instance has told that it left exactly if it has left.
pub fn leave_is_told<A: Above>()
    ensures { LeaveIsTold A.upper }
{}

/// In every run, the clocks are those of the running instances, each with its present reading.
pub fn clocks_are_of_running<A: Above>()
    ensures { ClocksAreOfRunning A.upper }
{}

/// In every run, who runs under a node's number is the instance of the number of its recorded starts.
pub fn instances_are_counted<A: Above>()
    ensures { InstancesAreCounted A.upper }
{}

/// In every run, an actor's synced records only grow, at their end.
pub fn records_grow<A: Above>()
    ensures { RecordsGrow A.upper }
{}

/// In every valid run, a running arbitrator's table is that of its synced records.
pub fn table_is_kept<A: Above>()
    ensures { TableIsKept A.upper }
{}
