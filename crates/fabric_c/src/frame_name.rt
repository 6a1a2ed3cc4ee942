ghost use Rattle.std.specs.Prelude.{◌≡◌};
ghost use Rattle.fabric_c.specs.Names.{frame_name};

use fabric_terms::Body;

/// The name of a message.
pub fn frame_name(body: &Body) -> &'static [u8]
    ensures { result.now ≡ frame_name body.now }
{
    match body {
        Body::Hello { .. } => b"Hello",
        Body::HelloFor { .. } => b"HelloFor",
        Body::Offer { .. } => b"Offer",
        Body::OfferFor { .. } => b"OfferFor",
        Body::Take { .. } => b"Take",
        Body::Renew { .. } => b"Renew",
        Body::RenewAck { .. } => b"RenewAck",
        Body::Transfer { .. } => b"Transfer",
        Body::Gone { .. } => b"Gone",
        Body::Seek { .. } => b"Seek",
        Body::Found { .. } => b"Found",
        Body::Accuse { .. } => b"Accuse",
        Body::Ruled { .. } => b"Ruled",
        Body::Claim { .. } => b"Claim",
        Body::Kept { .. } => b"Kept",
        Body::Prepare { .. } => b"Prepare",
        Body::Prepared { .. } => b"Prepared",
        Body::NoPrepare { .. } => b"NoPrepare",
        Body::Vote { .. } => b"Vote",
        Body::Voted { .. } => b"Voted",
        Body::NoVote { .. } => b"NoVote",
        Body::DoneAsk { .. } => b"DoneAsk",
        Body::DoneKept { .. } => b"DoneKept",
        Body::NoDone { .. } => b"NoDone",
        Body::Promise { .. } => b"Promise",
        Body::Promised { .. } => b"Promised",
        Body::Sync { .. } => b"Sync",
        Body::Fetch { .. } => b"Fetch",
        Body::Piece { .. } => b"Piece",
        Body::Adopted { .. } => b"Adopted",
        Body::Activate { .. } => b"Activate",
        Body::Activated { .. } => b"Activated",
        Body::Append { .. } => b"Append",
        Body::Appended { .. } => b"Appended",
        Body::Older { .. } => b"Older",
    }
}
