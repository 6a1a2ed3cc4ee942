ghost use Rattle.std.specs.Prelude.{◌≡◌, ◌+◌, ◌<◌, ◌∷◌, drop, length};
ghost use Rattle.line_format.specs.Lines.{lines_of};

use crate::piece::first_feed;

/// The first line, without its line feed, and what follows it.
#[tactic(auto, using(crate::proofs::Cuts::cut_at, crate::proofs::Cuts::cut_none, crate::proofs::Cuts::shorter, crate::proofs::Cuts::rest_at, crate::proofs::Cuts::rest_none))]
pub fn cut_line(bytes: &[u8]) -> (&[u8], &[u8])
    requires { 0 < length bytes.now }
    ensures lines { lines_of bytes.now ≡ result.0.now ∷ lines_of result.1.now }
    ensures shorter { length result.1.now < length bytes.now }
    ensures rest { result.1.now ≡ drop (length result.0.now + 1) bytes.now }
{
    match first_feed(bytes) {
        Some(i) => (&bytes[..i], &bytes[i + 1..]),
        None => (bytes, &[]),
    }
}
