ghost use Rattle.std.specs.Prelude.{◌≡◌, [], IfOk, OnErr};
ghost use Rattle.frame_hold.specs.Kept.{held_of, held_with, is_equal, is_free, is_held};

use crate::frames::frame_waits;
use crate::holding::Holding;
use edge_io::{Datagram, DatagramBytes, SocketAddress};
use fabric_terms::OutOfMemory;
use std::alloc::Global;
use std::marker::Model;

/// The most frames that wait.
pub const MAX_HELD: usize = 4_096;

/// The frames that wait, the oldest first. Of equal frames to one address one waits. Contracts see them as their list.
#[derive(Drop)]
pub struct HeldFrames {
    alloc: Global,
    frames: Vec<Datagram>,
}

impl Model for HeldFrames {
    ghost use Rattle.std.specs.Prelude.{List};
    ghost use Rattle.edge_io.specs.declared.datagram.Datagram.{Datagram};

    ghost Value = { List Datagram };

    ghost view = { λ h. h.frames.items };
}

/// Whether the datagram has these bytes, from this actor to this address.
fn is_equal(datagram: &Datagram, from: u16, to: &str, bytes: &[u8]) -> bool
    ensures { result ≡ is_equal datagram.now (record { from = from; to = to.now; bytes = bytes.now }) }
{
    datagram.from == from && datagram.to.as_str() == to && datagram.bytes.as_slice() == bytes
}

/// Whether the datagram is the actor's, and waits for nothing any more.
pub fn is_free(actor: u16, holding: &Holding, datagram: &Datagram) -> bool
    ensures { result ≡ is_free actor holding.now datagram.now }
{
    datagram.from == actor && !frame_waits(holding, datagram.bytes.as_slice())
}

impl HeldFrames {
    /// No frame waits.
    pub fn new(alloc: Global) -> HeldFrames
        ensures { result ≡ [] }
    {
        HeldFrames {
            alloc,
            frames: Vec::new(alloc),
        }
    }

    /// No frame waits any more.
    pub fn clear(&mut self)
        ensures { self.new ≡ [] }
    {
        self.frames.clear();
    }

    /// The frames, the oldest first.
    pub fn as_slice(&self) -> &[Datagram]
        ensures { result.now ≡ self.now }
    {
        self.frames.as_slice()
    }

    /// Whether an equal frame waits.
    fn is_held(&self, from: u16, to: &str, bytes: &[u8]) -> bool
        ensures { result ≡ is_held (record { from = from; to = to.now; bytes = bytes.now }) self.now }
    {
        self.frames
            .iter()
            .any(|datagram| is_equal(datagram, from, to, bytes))
    }

    /// Keeps a frame, if no equal one waits. Where no room is left it is dropped, as if it were lost.
    pub fn keep(&mut self, from: u16, to: &str, bytes: &[u8]) -> Result<(), OutOfMemory>
        ensures ok { IfOk result (λ _. self.new ≡
            held_with (record { from = from; to = to.now; bytes = bytes.now }) self.old) }
        ensures err { OnErr result (self.new ≡ self.old) }
    {
        if self.is_held(from, to, bytes) || self.frames.len() >= MAX_HELD {
            return Ok(());
        }
        let to = SocketAddress::new(String::from_str(self.alloc, to)?);
        let bytes = DatagramBytes::new(Vec::from_slice(self.alloc, bytes)?);
        self.frames.push(Datagram { from, to, bytes })?;
        Ok(())
    }

    /// Drops those of the actor that wait for nothing any more.
    pub fn drop_free(&mut self, actor: u16, holding: &Holding)
        ensures { self.new ≡ held_of actor holding.now self.old }
    {
        keep_others(&mut self.frames, actor, holding);
    }
}

fn keep_others(frames: &mut Vec<Datagram>, actor: u16, holding: &Holding)
    ensures { frames.new.items ≡ held_of actor holding.now frames.old.items }
{
    frames.retain(|datagram| !is_free(actor, holding, datagram));
}
