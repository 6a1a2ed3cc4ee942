ghost use Rattle.std.specs.Prelude.{◌≡◌, ◌+◌, ◌≤◌, ◌<◌, ◌∷◌, ◌++◌, [], IfOk, length, take, vec_capacity, vec_len};
ghost use Rattle.fabric_terms.specs.Sent.{from_all};

use crate::memory::OutOfMemory;
use crate::message::{Body, Message};
use ring_points::{OUTBOX_LIMIT, Who};
use std::alloc::Global;
use std::marker::Model;
use std::mem;

/// What one step sends, in its order, each with its addressee: at most `OUTBOX_LIMIT` messages. Contracts see them as
/// their list. An outbox takes the memory for so many when it is made, so that none of the calls that send can run out
/// of it.
#[derive(Drop)]
pub struct Outbox {
    messages: Vec<(Who, Body)>,
}

impl Model for Outbox {
    ghost use Rattle.std.specs.Prelude.{◌≤◌, List, length, vec_capacity};
    ghost use Rattle.ring_points.specs.declared.who.Who.{Who};
    ghost use Rattle.fabric_terms.specs.declared.message.Body.{Body};
    ghost use Rattle.ring_points.specs.Limits.{most_messages};

    ghost Value = { List (Who × Body) };

    ghost view = { λ o. o.messages.items };

    ghost invariant = { λ o. (length o.messages.items ≤ most_messages) × (most_messages ≤ vec_capacity o.messages) };
}

impl Outbox {
    /// Nothing is sent yet. It is an error where memory for `OUTBOX_LIMIT` messages is short.
    pub fn new(alloc: Global) -> Result<Outbox, OutOfMemory>
        ensures { IfOk result (λ o. o ≡ []) }
    {
        Ok(Outbox {
            messages: Vec::with_capacity(alloc, OUTBOX_LIMIT)?,
        })
    }

    /// Nothing is sent any more.
    pub fn clear(&mut self)
        ensures { self.new ≡ [] }
    {
        self.messages.clear();
    }

    /// Only the first so many messages are sent; the later ones never were.
    pub fn truncate(&mut self, count: usize)
        ensures { self.new ≡ take count self.old }
    {
        self.messages.truncate(count);
    }

    /// What is sent, in its order.
    pub fn messages(&self) -> &[(Who, Body)]
        ensures { result.now ≡ self.now }
    {
        self.messages.as_slice()
    }

    /// Moves what is sent behind a list that has room for it, in its order, as messages from this instance. The room
    /// stays, and nothing is sent any more.
    pub fn hand_over(&mut self, from: Who, frames: &mut Vec<Message>)
        requires { vec_len frames.old + length self.old ≤ vec_capacity frames.old }
        ensures frames { frames.new.items ≡ frames.old.items ++ from_all from self.old }
        ensures room { vec_capacity frames.new ≡ vec_capacity frames.old }
        ensures emptied { self.new ≡ [] }
    {
        let sent = self.messages.as_mut_slice();
        for i in 0..sent.len() {
            let (to, body) = mem::take(&mut sent[i]);
            frames.push_reserved(Message { from, to, body });
        }
        self.messages.clear();
    }

    /// Sends one more message.
    pub fn send(&mut self, to: Who, body: Body)
        requires { length self.old < OUTBOX_LIMIT }
        ensures { self.new ≡ self.old ++ (to, body) ∷ [] }
    {
        self.messages.push_reserved((to, body));
    }
}
