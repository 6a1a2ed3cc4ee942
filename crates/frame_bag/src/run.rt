// Frames that lie one after the other in one run of bytes, the oldest first.
ghost use Rattle.std.specs.Prelude.{◌≡◌, ◌≤◌, ◌<◌, ◌∷◌, None, Some, false, length, reverse, slice_index, slice_range, true};
ghost use Rattle.frame_bag.specs.Bags.{frame_of};
ghost use Rattle.frame_bag.specs.Stored.{AreFrames, messages_in};

use fabric_terms::Message;
use ring_wire::decode_into;

// The bytes of the frame at this place: from where the frame before it ends to where it ends.
fn frame_at<'a>(bytes: &'a [u8], ends: &[usize], at: usize) -> &'a [u8]
    requires known { at < length ends.now }
    requires in_order { slice_index (0 ∷ ends.now) at ≤ slice_index ends.now at }
    requires within { slice_index ends.now at ≤ length bytes.now }
    ensures { result.now ≡ slice_range bytes.now (slice_index (0 ∷ ends.now) at) (slice_index ends.now at) }
{
    let start = if at == 0 { 0 } else { ends[at - 1] };
    &bytes[start..ends[at]]
}

/// Reads the frame of this number, from 1, into a place. It is false where the run has fewer frames, or the number is 0,
/// and then any message may be there.
pub(crate) fn read_numbered(bytes: &[u8], ends: &[usize], number: u64, into: &mut Message) -> bool
    requires { AreFrames ends.now bytes.now (messages_in ends.now bytes.now) }
    ensures read { result ≡ true → frame_of number (reverse (messages_in ends.now bytes.now)) ≡ Some into.new }
    ensures none { result ≡ false → frame_of number (reverse (messages_in ends.now bytes.now)) ≡ None }
{
    if number == 0 || number > ends.len() as u64 {
        return false;
    }
    let at = number as usize - 1;
    decode_into(frame_at(bytes, ends, at), into).is_ok()
}
