ghost use Rattle.std.specs.Prelude.{◌≡◌, string_bytes};

use std::marker::Model;

/// The address of a socket as text, as `127.0.0.1:4000`. Contracts see it as its bytes.
#[derive(Drop)]
pub struct SocketAddress {
    text: String,
}

impl Model for SocketAddress {
    ghost use Rattle.std.specs.Prelude.{List, ℕ, string_bytes};

    ghost Value = { List ℕ };

    ghost view = { λ a. string_bytes a.text };
}

impl SocketAddress {
    pub fn new(text: String) -> Self
        ensures { result ≡ string_bytes text }
    {
        SocketAddress { text }
    }

    pub fn as_str(&self) -> &str
        ensures { result.now ≡ self.now }
    {
        self.text.as_str()
    }
}

/// An actor, and the address that it listens at.
#[derive(Drop)]
pub struct Endpoint {
    pub actor: u16,
    pub at: SocketAddress,
}
