ghost use Rattle.std.specs.Prelude.{◌≡◌, Some, None};
ghost use Rattle.fabric_terms.specs.declared.command.Command.TheVariants.{Create, Heal, Join, Link};
ghost use Rattle.fabric_steward.specs.Afterwards.{advised, command_given};
ghost use Rattle.fabric_steward.specs.Worked.{created, first_asked, first_waits, greeted_one, joined_once, joined_twice};
ghost use Rattle.fabric_steward.specs.Worked.{known_whole, managing, primary_anew, seeking, seen_down, told_later, told_missing};
ghost use Rattle.fabric_steward.specs.Worked.{seen_missing, seen_whole, two_anew};
ghost use Rattle.fabric_steward.specs.Worked.{without_one, without_primary, worked_policy};

/// Whom a node joins that does not route, computed: a law of the definition.
pub fn worked_joins()
    ensures first { command_given seeking 0 worked_policy ≡ Some (Join 1) }
    ensures pause { command_given seeking 249 joined_once ≡ None }
    ensures second { command_given seeking 250 joined_once ≡ Some (Join 2) }
    ensures longer { command_given seeking 749 joined_twice ≡ None }
    ensures again { command_given seeking 750 joined_twice ≡ Some (Join 1) }
{}

/// What a manager does with a declared partition, computed: a law of the definition.
pub fn worked_management()
    ensures learns { command_given managing 0 worked_policy ≡ Some (Heal 7 3) }
    ensures pause { command_given managing 249 told_missing ≡ None }
    ensures creates { command_given managing 250 told_missing ≡ Some (Create 7 3) }
    ensures whole { command_given known_whole 10000 created ≡ None }
    ensures down { command_given without_primary 1399 seen_down ≡ None }
    ensures heals { command_given without_primary 1400 seen_down ≡ Some (Heal 7 2) }
    ensures anew { command_given primary_anew 500 (advised known_whole 300 created) ≡ Some (Heal 7 3) }
{}

/// A member that was not heard since the partition was configured, and then began again, computed: a law of the
/// definition. One that was heard since then may begin again: it has the log of the epoch.
pub fn worked_roll_call()
    ensures waits { command_given two_anew 1399 seen_missing ≡ None }
    ensures heals { command_given two_anew 1400 seen_missing ≡ Some (Heal 7 3) }
    ensures whole { command_given two_anew 10000 seen_whole ≡ None }
{}

/// How a new manager learns of a partition while too few domains are up for it, computed: a law of the definition. It asks
/// a pause before it has managed for `heal_after`, and places then.
pub fn worked_learning()
    ensures greets { command_given without_one 100 worked_policy ≡ Some (Link 1) }
    ensures looks { command_given without_one 849 greeted_one ≡ None }
    ensures asks { command_given without_one 850 greeted_one ≡ Some (Heal 7 2) }
    ensures waits { command_given without_one 1099 told_later ≡ None }
    ensures places { command_given without_one 1100 told_later ≡ Some (Heal 7 2) }
{}

/// A partition whose learning heal waits holds the next one up for two leases, computed: a law of the definition.
pub fn worked_waiting()
    ensures waits { command_given first_waits 1999 first_asked ≡ None }
    ensures goes_on { command_given first_waits 2000 first_asked ≡ Some (Heal 8 3) }
{}
