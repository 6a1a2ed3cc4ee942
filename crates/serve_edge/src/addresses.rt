ghost use Rattle.std.specs.Prelude.{◌≡◌};
ghost use Rattle.std.specs.List.{list_all};
ghost use Rattle.serve_edge.specs.Addresses.{ReadsAddress, is_shown, is_visible, shown};

use crate::limits::MAX_SHOWN;
use std::net::SocketAddr;

/// The address that the text is: an IPv4 or IPv6 address, and a port above 0. None where it is none, as the name of a
/// host, which is never looked up.
pub fn read_address(text: &str) -> Option<SocketAddr>
    ensures { ReadsAddress text.now result }
{
    match text.parse::<SocketAddr>() {
        Ok(address) => {
            if address.port() == 0 {
                None
            } else {
                Some(address)
            }
        }
        Err(_) => None,
    }
}

/// Whether the sign is visible.
fn is_visible(sign: u8) -> bool
    ensures { result ≡ is_visible sign }
{
    sign >= b'!' && sign <= b'~'
}

/// Whether each sign is visible.
fn all_visible(text: &[u8]) -> bool
    ensures { result ≡ list_all is_visible text.now }
{
    text.iter().all(|sign| is_visible(*sign))
}

/// Whether the text is shown as it is.
fn is_shown(text: &[u8]) -> bool
    ensures { result ≡ is_shown text.now }
{
    !text.is_empty() && text.len() <= MAX_SHOWN && all_visible(text)
}

/// A refused text as its fault line shows it: as `-`, if it has no byte, too many, or one that is not visible.
pub fn shown(text: &[u8]) -> &[u8]
    ensures { result.now ≡ shown text.now }
{
    if is_shown(text) { text } else { b"-" }
}
