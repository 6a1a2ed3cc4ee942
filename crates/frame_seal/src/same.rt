ghost use Rattle.std.specs.Prelude.{◌≡◌, ◌↔◌, IsTrue};

use crate::limits::SEAL_BYTES;

/// Whether both are equal. Every byte is looked at, whatever they are, so the time tells nothing of where they differ.
pub fn is_same(a: &[u8; 34], b: &[u8; 34]) -> bool
    ensures { IsTrue result ↔ (a.now ≡ b.now) }
{
    let mut differing = 0u8;
    for i in 0..SEAL_BYTES {
        differing += u8::from(a[i] != b[i]);
    }
    differing == 0
}
