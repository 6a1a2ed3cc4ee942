// The frames of a step.
ghost use Rattle.std.specs.Prelude.{◌∷◌, [], map, All, IsTrue};
ghost use Rattle.edge_io.specs.Arrivals.{IsListening};
ghost use Rattle.fabric_terms.specs.Messages.{is_sound};
ghost use Rattle.turn_effects.specs.Carried.{SendsAll};
ghost use Rattle.turn_rules.specs.Effects.{sent_by};
ghost use Rattle.turn_rules.specs.Works.{post_of, posts_of};

use crate::address::address_of;
use edge_io::{EdgeRefusal, Outside};
use fabric_terms::{FabricConfig, Message};
use ring_points::FRAME_LIMIT;
use ring_wire::encode;
use turn_rules::StopCause;

/// Sends bytes to an address, where the links do not fail.
fn try_send<O: Outside>(
    outside: &mut O,
    actor: u16,
    at: &str,
    bytes: &[u8],
) -> Result<(), StopCause>
    requires { IsListening actor (O.told outside.old).opened }
    ensures { SendsAll (record { from = actor; to = at.now; bytes = bytes.now } ∷ []) (O.told outside.old)
        (O.told outside.new) result }
{
    match outside.send(actor, at, bytes) {
        Ok(()) => Ok(()),
        Err(EdgeRefusal::Failed) => Ok(()),
        Err(EdgeRefusal::OutOfMemory) => Err(StopCause::OutOfMemory),
    }
}

/// Sends a frame to its addressee, if that is configured. Its bytes are made in the buffer.
fn send_one<O: Outside>(
    outside: &mut O,
    config: &FabricConfig,
    actor: u16,
    frame: &Message,
    buffer: &mut [u8; FRAME_LIMIT],
) -> Result<(), StopCause>
    requires listens { IsListening actor (O.told outside.old).opened }
    requires sound { IsTrue (is_sound frame.now) }
    ensures { SendsAll (map (sent_by actor) (post_of config.now frame.now)) (O.told outside.old) (O.told outside.new)
        result }
{
    match address_of(config, frame.to.actor) {
        None => Ok(()),
        Some(at) => {
            let length = encode(frame, buffer);
            try_send(outside, actor, at, &buffer[..length])
        }
    }
}

/// Sends frames of an actor, one after another. The bytes of each are made in the buffer.
pub(crate) fn send_each<O: Outside>(
    outside: &mut O,
    config: &FabricConfig,
    actor: u16,
    frames: &[Message],
    buffer: &mut [u8; FRAME_LIMIT],
) -> Result<(), StopCause>
    requires listens { IsListening actor (O.told outside.old).opened }
    requires sound { All (λ m. IsTrue (is_sound m)) frames.now }
    ensures { SendsAll (map (sent_by actor) (posts_of config.now frames.now)) (O.told outside.old) (O.told outside.new)
        result }
{
    for frame in frames {
        send_one(outside, config, actor, frame, buffer)?;
    }
    Ok(())
}

/// Sends frames of an actor, one after another. What the links fail to send is left out. `OutOfMemory` is the only refusal.
pub fn send_all<O: Outside>(
    outside: &mut O,
    config: &FabricConfig,
    actor: u16,
    frames: &[Message],
) -> Result<(), StopCause>
    requires listens { IsListening actor (O.told outside.old).opened }
    requires sound { All (λ m. IsTrue (is_sound m)) frames.now }
    ensures { SendsAll (map (sent_by actor) (posts_of config.now frames.now)) (O.told outside.old) (O.told outside.new)
        result }
{
    // Most steps send nothing, and clear no buffer.
    if frames.is_empty() {
        return Ok(());
    }
    send_each(outside, config, actor, frames, &mut [0u8; FRAME_LIMIT])
}
