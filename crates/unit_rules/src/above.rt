ghost use Rattle.unit_rules.specs.Fabric.{fabric, fabric_stays};

use world_rules::Above;

/// What runs above the ring in this fabric: managers and replicas at nodes, registers at arbitrators.
pub struct Fabric;

impl Above for Fabric {
    ghost upper = { fabric };

    ghost stays = { fabric_stays };
}
