ghost use Rattle.std.specs.Prelude.{◌≡◌, true, false, IfNone, IfSome};
ghost use Rattle.unit_rules.specs.Epochs.{epoch_after_loss, is_past_end, next_epoch};
ghost use Rattle.unit_rules.specs.Manager.{epoch_of};

use ring_points::Epoch;
use unit_rules::Kind;

/// The epoch after this one, if there is one.
#[tactic(auto, using(crate::proofs::Ends::past_next, crate::proofs::Ends::next_inside))]
fn next(highest: Epoch) -> Option<Epoch>
    ensures next { IfSome result (λ epoch. (epoch ≡ next_epoch highest) × (is_past_end epoch ≡ false)) }
    ensures end { IfNone result (is_past_end (next_epoch highest) ≡ true) }
{
    if highest.configuration == u32::MAX {
        return None;
    }
    Some(Epoch {
        data_loss: highest.data_loss,
        configuration: highest.configuration + 1,
    })
}

/// The first epoch after a loss of data, if there is one.
#[tactic(auto, using(crate::proofs::Ends::past_loss, crate::proofs::Ends::loss_inside))]
fn after_loss(highest: Epoch) -> Option<Epoch>
    ensures next { IfSome result (λ epoch. (epoch ≡ epoch_after_loss highest) × (is_past_end epoch ≡ false)) }
    ensures end { IfNone result (is_past_end (epoch_after_loss highest) ≡ true) }
{
    if highest.data_loss == u32::MAX {
        return None;
    }
    Some(Epoch {
        data_loss: highest.data_loss + 1,
        configuration: 1,
    })
}

/// The epoch of a commanded reconfiguration, after the highest known one. There is none if one of its numbers would be
/// past the last one.
pub(crate) fn epoch_after(kind: Kind, highest: Epoch) -> Option<Epoch>
    ensures next { IfSome result (λ epoch. (epoch ≡ epoch_of kind highest) × (is_past_end epoch ≡ false)) }
    ensures end { IfNone result (is_past_end (epoch_of kind highest) ≡ true) }
{
    match kind {
        Kind::Lose(_) => after_loss(highest),
        Kind::Create(_) | Kind::Swap(_) | Kind::Heal(_) => next(highest),
    }
}
