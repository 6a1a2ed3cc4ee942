// Frames as bytes: what they are is asked once, here.
ghost use Rattle.std.specs.Prelude.{◌≡◌};
ghost use Rattle.frame_hold.specs.OneLength.{has_length, names_length};
ghost use Rattle.frame_hold.specs.Waits.{frame_waits};

use crate::holding::Holding;
use fabric_terms::Body;
use ring_wire::decode;

/// Whether these bytes are a frame that waits for a number that is open.
#[tactic(auto, unfolding(crate::specs::Waits::frame_waits))]
pub fn frame_waits(holding: &Holding, bytes: &[u8]) -> bool
    ensures { result ≡ frame_waits holding.now bytes.now }
{
    match decode(bytes) {
        Ok(message) => holding.waits(&message),
        Err(_) => false,
    }
}

/// Whether it is a Hello or an Offer with a length of its own.
fn has_length(body: &Body) -> bool
    ensures { result ≡ has_length body.now }
{
    matches!(body, Body::HelloFor { .. } | Body::OfferFor { .. })
}

/// Whether these bytes are a Hello or an Offer with a length of its own.
#[tactic(auto, unfolding(crate::specs::OneLength::names_length))]
pub fn names_length(bytes: &[u8]) -> bool
    ensures { result ≡ names_length bytes.now }
{
    match decode(bytes) {
        Ok(message) => has_length(&message.body),
        Err(_) => false,
    }
}
