ghost use Rattle.std.specs.Prelude.{◌≡◌, ◌≤◌, ◌<◌, ◌+◌, ◌++◌, ◌∷◌, [], None, OnOk, OnErr, IsTrue, Some, false, length, true, vec_capacity, vec_len};
ghost use Rattle.frame_bag.specs.Bags.{frame_of};
ghost use Rattle.fabric_terms.specs.Messages.{is_sound};

use crate::run::read_numbered;
use bytes::BytesMut;
use fabric_terms::{Message, OutOfMemory};
use ring_points::FRAME_LIMIT;
use ring_wire::encode;
use std::alloc::Global;
use std::marker::Model;

/// The frames that were sent, by their numbers, from 1. Contracts see them as the record `Bag`: the messages, the
/// newest first, and for how many more there is room.
///
/// A frame goes to bytes that grow as frames come. Where memory for that is short, it goes to spare bytes that were taken
/// before, and so do all frames behind it. So posting never fails, and nothing is cleared for the most that could come:
/// `BytesMut` clears what it takes, and a vector does not.
#[derive(Drop)]
pub struct FrameBag {
    /// The bytes of the frames, one after the other, the oldest first.
    bytes: BytesMut,
    /// Where each of these ends, in bytes.
    ends: Vec<usize>,
    /// The frames behind these, in the same way: there are none unless memory was short.
    spare: Vec<u8>,
    spare_ends: Vec<usize>,
    /// For so many frames more there are spare bytes, `FRAME_LIMIT` each, and places for their ends.
    room: usize,
    /// Where a frame is spelled before it is put behind the others. It serves each frame, so that none clears it.
    spelled: [u8; FRAME_LIMIT],
}

impl Model for FrameBag {
    ghost use Rattle.std.specs.Prelude.{◌+◌, ◌*◌, ◌≤◌, ◌++◌, reverse, length, vec_len, vec_capacity};
    ghost use Rattle.ring_points.specs.Limits.{most_frame};
    ghost use Rattle.frame_bag.specs.Stored.{messages_in, AreFrames};
    ghost use Rattle.frame_bag.specs.Bags.{Bag};

    ghost Value = { Bag };

    ghost view = { λ b. record {
      frames = reverse (messages_in b.spare_ends.items b.spare.items) ++ reverse (messages_in b.ends.items b.bytes.items);
      room = b.room;
    } };

    ghost invariant = { λ b. AreFrames b.ends.items b.bytes.items (messages_in b.ends.items b.bytes.items)
        × AreFrames b.spare_ends.items b.spare.items (messages_in b.spare_ends.items b.spare.items)
        × (vec_len b.spare + most_frame * b.room ≤ vec_capacity b.spare) × (vec_len b.ends + b.room ≤ vec_capacity b.ends)
        × (vec_len b.spare_ends + b.room ≤ vec_capacity b.spare_ends) };
}

/// Appends bytes where that is allowed and memory for them can be had. Where it is false, the bytes are as they were.
fn try_append(bytes: &mut BytesMut, more: &[u8], is_allowed: bool) -> bool
    ensures appended { result ≡ true → bytes.new.items ≡ bytes.old.items ++ more.now }
    ensures allowed { result ≡ true → is_allowed ≡ true }
    ensures refused { result ≡ false → bytes.new.items ≡ bytes.old.items }
{
    is_allowed && bytes.extend_from_slice(more).is_ok()
}

/// Appends bytes for which there is room.
fn append(bytes: &mut Vec<u8>, more: &[u8])
    requires { vec_len bytes.old + length more.now ≤ vec_capacity bytes.old }
    ensures items { bytes.new.items ≡ bytes.old.items ++ more.now }
    ensures len { vec_len bytes.new ≡ vec_len bytes.old + length more.now }
    ensures room { vec_capacity bytes.old ≤ vec_capacity bytes.new }
{
    match bytes.extend_from_slice(more) {
        Ok(()) => {}
        Err(_) => unreachable!(),
    }
}

impl FrameBag {
    /// No frame.
    pub fn new(alloc: Global) -> Self
        ensures { result.frames ≡ [] }
    {
        FrameBag {
            bytes: BytesMut::new(alloc),
            ends: Vec::new(alloc),
            spare: Vec::new(alloc),
            spare_ends: Vec::new(alloc),
            room: 0,
            spelled: [0; FRAME_LIMIT],
        }
    }

    /// Makes room for so many frames more. It is an error where memory is short, and then there is the room of before.
    pub fn reserve(&mut self, count: usize) -> Result<(), OutOfMemory>
        requires { count ≤ 1_000_000 }
        ensures frames { self.new.frames ≡ self.old.frames }
        ensures room { OnOk result (count ≤ self.new.room) }
        ensures refused { OnErr result (self.new.room ≡ self.old.room) }
    {
        if count <= self.room {
            return Ok(());
        }
        self.spare.reserve(FRAME_LIMIT * count)?;
        self.spare_ends.reserve(count)?;
        self.ends.reserve(count)?;
        self.room = count;
        Ok(())
    }

    /// One more frame, for which there is room.
    pub fn post(&mut self, message: &Message)
        requires room { 0 < self.old.room }
        requires sound { IsTrue (is_sound message.now) }
        ensures frames { self.new.frames ≡ message.now ∷ self.old.frames }
        ensures room { self.new.room + 1 ≡ self.old.room }
    {
        let len = encode(message, &mut self.spelled);
        let frame = &self.spelled[..len];
        self.room -= 1;
        if try_append(&mut self.bytes, frame, self.spare_ends.is_empty()) {
            self.ends.push_reserved(self.bytes.len());
            return;
        }
        append(&mut self.spare, frame);
        self.spare_ends.push_reserved(self.spare.len());
    }

    /// How many frames were sent.
    pub fn len(&self) -> usize
        ensures { result ≡ length self.now.frames }
    {
        self.ends.len() + self.spare_ends.len()
    }

    /// Reads the frame of this number into a place, which can serve one frame after the other. It is false where fewer
    /// frames were sent, or the number is 0, and then any message may be there.
    pub fn read(&self, number: u64, into: &mut Message) -> bool
        ensures read { result ≡ true → frame_of number self.now.frames ≡ Some into.new }
        ensures none { result ≡ false → frame_of number self.now.frames ≡ None }
    {
        let early = self.ends.len() as u64;
        if number <= early {
            read_numbered(&self.bytes, &self.ends, number, into)
        } else {
            read_numbered(&self.spare, &self.spare_ends, number - early, into)
        }
    }
}
