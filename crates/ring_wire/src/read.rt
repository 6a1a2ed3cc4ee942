ghost use Rattle.std.specs.Prelude.{◌≡◌, ◌≢◌, IsTrue, MatchResult};
ghost use Rattle.fabric_terms.specs.declared.message.Message.{Message};
ghost use Rattle.fabric_terms.specs.Messages.{is_sound};
ghost use Rattle.frame_format.specs.Frames.{spelling};
ghost use Rattle.wire_fields.specs.Readers.{Gives, Fills};
ghost use Rattle.frame_format.specs.Kinds.{head_at, body_of, message_of};

mod links;
mod partitions;
mod replicas;
mod rulings;
mod searches;

use crate::not_frame::NotFrame;
use crate::write::FIRST_BYTE;
use fabric_terms::{Body, Message};
use frame_format::FrameHead;
use links::{read_lease, read_link};
use ring_points::Who;
use wire_fields::read::{addressee_at, sender_at, u8_at};

#[tactic(auto, unfolding(frame_format::specs::Kinds::head_at))]
fn head_at(bytes: &[u8]) -> Result<(FrameHead, &[u8]), NotFrame>
    ensures { Gives (λ x. (x.0, x.1.now)) result (head_at bytes.now) }
{
    let (first, rest) = u8_at(bytes)?;
    if first != FIRST_BYTE {
        return Err(NotFrame);
    }
    let (version, rest) = u8_at(rest)?;
    let (kind, rest) = u8_at(rest)?;
    let (from, rest) = sender_at(rest)?;
    let (to, rest) = addressee_at(rest)?;
    Ok((
        FrameHead {
            version,
            kind,
            from,
            to,
        },
        rest,
    ))
}

// The body, to the end of the bytes. A refusal may leave any body.
#[tactic(auto, unfolding(frame_format::specs::Kinds::body_of))]
fn read_body(head: FrameHead, bytes: &[u8], body: &mut Body) -> Result<(), NotFrame>
    ensures { Fills result body.new (body_of head.version head.kind bytes.now) }
{
    match head.version {
        1 => read_link(head.kind, bytes, body),
        2 => read_lease(head.kind, bytes, body),
        _ => Err(NotFrame),
    }
}

// The message, to the end of the bytes, into a place. A refusal may leave any message.
#[tactic(auto, unfolding(frame_format::specs::Kinds::message_of))]
fn read_message(frame: &[u8], message: &mut Message) -> Result<(), NotFrame>
    ensures { Fills result message.new (message_of frame.now) }
{
    let (head, rest) = head_at(frame)?;
    message.from = head.from;
    message.to = head.to;
    read_body(head, rest, &mut message.body)
}

/// Reads the message that these bytes spell into a place, which can serve one frame after the other. NotFrame comes
/// exactly where they spell none, and then any message may stand there.
pub fn decode_into(frame: &[u8], message: &mut Message) -> Result<(), NotFrame>
    ensures { MatchResult result (λ _. IsTrue (is_sound message.new) × (spelling message.new ≡ frame.now))
        (λ _. (m : Message) → IsTrue (is_sound m) → spelling m ≢ frame.now) }
{
    read_message(frame, message)
}

/// The message that these bytes spell. NotFrame comes exactly where they spell none.
pub fn decode(frame: &[u8]) -> Result<Message, NotFrame>
    ensures { MatchResult result (λ m. IsTrue (is_sound m) × (spelling m ≡ frame.now))
        (λ _. (m : Message) → IsTrue (is_sound m) → spelling m ≢ frame.now) }
{
    let nobody = Who {
        actor: 0,
        instance: 0,
    };
    let mut message = Message {
        from: nobody,
        to: nobody,
        body: Body::Hello { mine: 0 },
    };
    decode_into(frame, &mut message)?;
    Ok(message)
}
