ghost use Rattle.std.specs.Prelude.{◌≡◌, ◌≤◌, ◌+◌, ◌++◌, [], ◌∷◌, length, drop, IsTrue};
ghost use Rattle.fabric_terms.specs.Messages.{is_sound, is_sound_body};
ghost use Rattle.frame_format.specs.Frames.{version_of, kind_of, body_bytes, spelling};
ghost use Rattle.frame_format.specs.Sizes.{most_body_size};
ghost use Rattle.wire_fields.specs.Writers.{Puts};

mod greetings;
mod links;
mod partitions;
mod replicas;
mod roles;
mod rulings;
mod searches;

use fabric_terms::{Body, Message};
use greetings::put_greeting;
use links::put_link;
use partitions::put_partition;
use replicas::put_replica;
use ring_points::FRAME_LIMIT;
use roles::put_role;
use rulings::put_ruling_body;
use searches::put_search;
use wire_fields::write::{put_u8, put_who};

/// The first byte of every frame.
pub(crate) const FIRST_BYTE: u8 = 0x53;

// Leases of their own length have the version 2.
fn version_of(body: &Body) -> u8
    ensures { result ≡ version_of body.now }
{
    match body {
        Body::HelloFor { .. } | Body::OfferFor { .. } => 2,
        _ => 1,
    }
}

fn kind_of(body: &Body) -> u8
    ensures { result ≡ kind_of body.now }
{
    match body {
        Body::Hello { .. } => 1,
        Body::HelloFor { .. } => 1,
        Body::Offer { .. } => 2,
        Body::OfferFor { .. } => 2,
        Body::Take { .. } => 3,
        Body::Renew { .. } => 4,
        Body::RenewAck { .. } => 5,
        Body::Transfer { .. } => 6,
        Body::Gone { .. } => 7,
        Body::Seek { .. } => 8,
        Body::Found { .. } => 9,
        Body::Accuse { .. } => 16,
        Body::Ruled { .. } => 17,
        Body::Claim { .. } => 18,
        Body::Kept { .. } => 19,
        Body::Prepare { .. } => 32,
        Body::Prepared { .. } => 33,
        Body::NoPrepare { .. } => 34,
        Body::Vote { .. } => 35,
        Body::Voted { .. } => 36,
        Body::NoVote { .. } => 37,
        Body::DoneAsk { .. } => 38,
        Body::DoneKept { .. } => 39,
        Body::NoDone { .. } => 40,
        Body::Promise { .. } => 48,
        Body::Promised { .. } => 49,
        Body::Sync { .. } => 50,
        Body::Fetch { .. } => 51,
        Body::Piece { .. } => 52,
        Body::Adopted { .. } => 53,
        Body::Activate { .. } => 54,
        Body::Activated { .. } => 55,
        Body::Append { .. } => 56,
        Body::Appended { .. } => 57,
        Body::Older { .. } => 58,
    }
}

// The bytes before the actors: the first one, the version and the kind.
fn put_start(into: &mut [u8; FRAME_LIMIT], body: &Body) -> usize
    ensures wrote { Puts (83 ∷ version_of body.now ∷ kind_of body.now ∷ []) into.old 0 into.new result }
    ensures end { result ≡ 3 }
{
    let at = put_u8(into, 0, FIRST_BYTE);
    let at = put_u8(into, at, version_of(body));
    put_u8(into, at, kind_of(body))
}

// The fields of the body. Gives the place after them.
fn put_body(into: &mut [u8; FRAME_LIMIT], at: usize, body: &Body) -> usize
    requires room { at + most_body_size ≤ FRAME_LIMIT }
    requires sound { IsTrue (is_sound_body body.now) }
    ensures { Puts (body_bytes body.now) into.old at into.new result }
{
    match kind_of(body) {
        0..=3 => put_greeting(into, at, body),
        4..=7 => put_link(into, at, body),
        8..=15 => put_search(into, at, body),
        16..=31 => put_ruling_body(into, at, body),
        32..=47 => put_partition(into, at, body),
        48..=53 => put_replica(into, at, body),
        _ => put_role(into, at, body),
    }
}

/// Writes the message as a frame to the front of `into`, and gives the frame's length, which is at most `FRAME_LIMIT`.
/// The bytes behind it are left as they were.
pub fn encode(message: &Message, into: &mut [u8; FRAME_LIMIT]) -> usize
    requires { IsTrue (is_sound message.now) }
    ensures written { into.new ≡ spelling message.now ++ drop (length (spelling message.now)) into.old }
    ensures length { result ≡ length (spelling message.now) }
    ensures fits { result ≤ FRAME_LIMIT }
{
    let at = put_start(into, &message.body);
    let at = put_who(into, at, message.from);
    let at = put_who(into, at, message.to);
    put_body(into, at, &message.body)
}
