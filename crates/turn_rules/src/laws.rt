ghost use Rattle.turn_rules.specs.Laws.{BadRecordsBar, ExampleIsInOrder, NoneToStrangers, NothingAfterEnd, OnePlace};
ghost use Rattle.turn_rules.specs.Laws.{PlansAreServed, RestsAreIdle, ServedExample};
ghost use Rattle.turn_rules.specs.Order.{Goes, GoesServed};

/// What has come in order leads to one place: what may come next does not depend on how the order is seen. So it is in a
/// run of a plan and in a served run.
pub fn what_has_come_leads_to_one_place()
    ensures planned { OnePlace Goes }
    ensures served { OnePlace GoesServed }
{}

/// Each run of a plan is a served one.
pub fn a_run_of_a_plan_is_served()
    ensures { PlansAreServed }
{}

/// A turn that ends without a firing changes no actor, and keeps, sends and writes nothing.
pub fn a_resting_turn_does_nothing()
    ensures { RestsAreIdle }
{}

/// Whatever would come after a run has ended changes nothing.
pub fn nothing_comes_after_an_end()
    ensures { NothingAfterEnd }
{}

/// Where no actor is configured, no frame makes a datagram.
pub fn a_frame_to_nobody_makes_no_datagram()
    ensures { NoneToStrangers }
{}

/// Where the keeper tells and a record is bad, no endpoint is opened, and a run ends with that record, or before it was
/// told: the keeper or the sink failed, or memory was short.
pub fn a_bad_record_bars_a_run()
    ensures { BadRecordsBar }
{}

/// The starts and a turn of a node and an arbitrator, as an example that is computed.
pub fn a_turn_in_order()
    ensures { ExampleIsInOrder }
{}

/// Two served turns of a node, one without a firing and one with a command, as an example that is computed. No run of a
/// plan has them.
pub fn served_turns_in_order()
    ensures { ServedExample }
{}
