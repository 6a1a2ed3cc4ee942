ghost use Rattle.std.specs.Prelude.{◌≡◌};
ghost use Rattle.ring_points.specs.Limits.{least_lease, most_arbiters, most_counter, most_domains, most_drift};
ghost use Rattle.ring_points.specs.Limits.{most_frame, most_grain, most_hops, most_intervals, most_lease};
ghost use Rattle.ring_points.specs.Limits.{most_listed_names, most_log_entries, most_members, most_messages};
ghost use Rattle.ring_points.specs.Limits.{most_name, most_name_value, most_node_number, most_nodes, most_partitions};
ghost use Rattle.ring_points.specs.Limits.{most_reading, most_ring_reports, most_rounds, most_step_reports};
ghost use Rattle.ring_points.specs.Limits.{most_write};

use crate::limits::{
    FRAME_LIMIT, MAX_ARBITRATORS, MAX_COUNTER, MAX_DOMAINS, MAX_DRIFT, MAX_GRAIN, MAX_HOPS,
    MAX_INTERVALS, MAX_LEASE, MAX_LISTED_NAMES, MAX_LOG_ENTRIES, MAX_MEMBERS, MAX_NAME,
    MAX_NAME_VALUE, MAX_NODE_NUMBER, MAX_NODES, MAX_PARTITIONS, MAX_READING, MAX_RING_REPORTS,
    MAX_ROUNDS, MAX_STEP_REPORTS, MAX_WRITE, MIN_LEASE, OUTBOX_LIMIT,
};

/// Each constant is the number that the definitions have.
pub fn constants_are_the_defined_limits()
    ensures reading { MAX_READING ≡ most_reading }
    ensures least_lease { MIN_LEASE ≡ least_lease }
    ensures lease { MAX_LEASE ≡ most_lease }
    ensures drift { MAX_DRIFT ≡ most_drift }
    ensures grain { MAX_GRAIN ≡ most_grain }
    ensures nodes { MAX_NODES ≡ most_nodes }
    ensures node_number { MAX_NODE_NUMBER ≡ most_node_number }
    ensures domains { MAX_DOMAINS ≡ most_domains }
    ensures arbitrators { MAX_ARBITRATORS ≡ most_arbiters }
    ensures rounds { MAX_ROUNDS ≡ most_rounds }
    ensures intervals { MAX_INTERVALS ≡ most_intervals }
    ensures hops { MAX_HOPS ≡ most_hops }
    ensures counter { MAX_COUNTER ≡ most_counter }
    ensures partitions { MAX_PARTITIONS ≡ most_partitions }
    ensures members { MAX_MEMBERS ≡ most_members }
    ensures log_entries { MAX_LOG_ENTRIES ≡ most_log_entries }
    ensures write { MAX_WRITE ≡ most_write }
    ensures name { MAX_NAME ≡ most_name }
    ensures name_value { MAX_NAME_VALUE ≡ most_name_value }
    ensures listed_names { MAX_LISTED_NAMES ≡ most_listed_names }
    ensures frame { FRAME_LIMIT ≡ most_frame }
    ensures messages { OUTBOX_LIMIT ≡ most_messages }
    ensures ring_reports { MAX_RING_REPORTS ≡ most_ring_reports }
    ensures step_reports { MAX_STEP_REPORTS ≡ most_step_reports }
{}
