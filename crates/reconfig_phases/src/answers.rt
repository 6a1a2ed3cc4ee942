ghost use Rattle.std.specs.Prelude.{◌≡◌};
ghost use Rattle.reconfig_phases.specs.Answers.{answered_unit};
ghost use Rattle.unit_rules.specs.Transitions.{carried};

use fabric_terms::Body;
use ring_points::Epoch;

/// The partition and the epoch to which a message answers, where it answers a manager.
pub fn answered_unit(body: &Body) -> Option<(u16, Epoch)>
    ensures { result ≡ answered_unit body.now }
{
    match body {
        Body::Prepared {
            partition,
            epoch,
            ..
        }
        | Body::NoPrepare {
            partition,
            epoch,
            ..
        }
        | Body::Voted {
            partition,
            epoch,
            ..
        }
        | Body::NoVote {
            partition,
            epoch,
            ..
        }
        | Body::DoneKept { partition, epoch }
        | Body::NoDone {
            partition,
            epoch,
            ..
        }
        | Body::Promised {
            partition,
            epoch,
            ..
        }
        | Body::Adopted {
            partition,
            epoch,
            ..
        }
        | Body::Activated { partition, epoch }
        | Body::Older {
            partition,
            epoch,
            ..
        } => Some((*partition, *epoch)),
        _ => None,
    }
}

/// The epoch that an answer says is kept.
pub fn carried(body: &Body) -> Option<Epoch>
    ensures { result ≡ carried body.now }
{
    match body {
        Body::NoPrepare { kept, .. }
        | Body::NoVote { kept, .. }
        | Body::NoDone { kept, .. }
        | Body::Older { kept, .. } => Some(*kept),
        _ => None,
    }
}
