ghost use Rattle.fabric_top.specs.ClusterPlans.{ReadsClusterPlans};

/// What a source defines for a cluster is a cluster's plan.
pub fn a_clusters_plan_is_read()
    ensures { ReadsClusterPlans }
{}
