ghost use Rattle.std.specs.Prelude.{◌≡◌, ◌==◌, position};
ghost use Rattle.serve_top.specs.Files.{cut_by};

/// Where the first such sign is.
fn place_of(sign: u8, bytes: &[u8]) -> Option<usize>
    ensures { result ≡ position (λ b. b == sign) bytes.now }
{
    bytes.iter().position(|byte| *byte == sign)
}

/// What stands before the first such sign, and what stands behind it: all of the bytes and nothing, if there is none.
#[tactic(auto, using(text_fields::proofs::Lists::rest_is))]
pub(crate) fn cut_by(sign: u8, bytes: &[u8]) -> (&[u8], &[u8])
    ensures { (result.0.now, result.1.now) ≡ cut_by sign bytes.now }
{
    match place_of(sign, bytes) {
        Some(end) => (&bytes[..end], &bytes[end + 1..]),
        None => (bytes, b""),
    }
}
