ghost use Rattle.std.specs.Prelude.{◌≡◌, ◌<◌, ◌+◌, get_or};
ghost use Rattle.frame_seal.specs.Seals.{number_at, receiver_of, sender_of};

/// Where a frame has the number of its sender.
const SENDER: usize = 3;

/// Where a frame has the number of its receiver.
const RECEIVER: usize = 9;

/// The byte at this place, or 0.
fn byte_at(frame: &[u8], place: usize) -> u8
    ensures { result ≡ get_or frame.now place 0 }
{
    match frame.get(place) {
        Some(byte) => *byte,
        None => 0,
    }
}

/// The number of two bytes at this offset.
fn number_at(frame: &[u8], offset: usize) -> u16
    requires { offset < 10 }
    ensures { result ≡ number_at offset frame.now }
{
    u16::from(byte_at(frame, offset)) * 256 + u16::from(byte_at(frame, offset + 1))
}

/// The number of the actor that sends this frame, as the frame says.
pub fn sender_of(frame: &[u8]) -> u16
    ensures { result ≡ sender_of frame.now }
{
    number_at(frame, SENDER)
}

/// The number of the actor that this frame is for, as the frame says.
pub fn receiver_of(frame: &[u8]) -> u16
    ensures { result ≡ receiver_of frame.now }
{
    number_at(frame, RECEIVER)
}
