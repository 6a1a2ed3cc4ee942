ghost use Rattle.std.specs.Prelude.{◌≡◌, ◌∷◌, ◌<◌, ◌+◌, Some, true, OnErr, IfOk, IfSome, IsTrue, length};
ghost use Rattle.arbiter_core.specs.Arbiters.{entries};
ghost use Rattle.fabric_terms.specs.declared.config.FabricConfig.{FabricConfig as Configuration};
ghost use Rattle.ring_points.specs.Whos.{arbiter_actor};
ghost use Rattle.fabric_terms.specs.Messages.{is_sound};
ghost use Rattle.std.specs.Option.{option_to_list};
ghost use Rattle.world_rules.specs.Arbiters.{ArbiterState, arbiter_step};
ghost use Rattle.fabric_lemmas.specs.Maps.{at, rises};
ghost use Rattle.unit_rules.specs.Fabric.{fabric};
ghost use Rattle.world_rules.specs.Worlds.{World as RuledWorld, arbiter_acted, numbers_of, posted};
ghost use Rattle.ring_world.specs.Moves.{Same, Steps};
ghost use Rattle.world_rules.specs.EventLimits.{most_events, most_frames};
ghost use Rattle.ring_world.specs.Rulings.{CanRule, HeardAt, Hears};
ghost use Rattle.ring_world.specs.Stands.{Stands};

use crate::configured_arbiter::ConfiguredArbiter;
use crate::world::{Acted, World};
use arbiter_core::{Answer, ArbiterError};
use fabric_terms::{Body, Message, OutOfMemory};
use node_core::Batch;
use ring_points::Who;

impl ConfiguredArbiter {
    /// The arbitrator hears a message: what it records is kept, and its answer is given.
    fn hear(&mut self, message: &Message) -> Result<Option<(Who, Body)>, OutOfMemory>
        requires few { entries self.old.arbiter < most_events }
        requires rise { rises self.old.arbiter.registers ≡ true }
        ensures hears { IfOk result (λ reply. (c : Configuration) → Hears c message.now self.old self.new reply) }
        ensures refused { OnErr result (self.new ≡ self.old) }
    {
        match self.arbiter.on_frame(message) {
            Ok(Answer::Nothing) => Ok(None),
            Ok(Answer::Reply { to, body, .. }) => Ok(Some((to, body))),
            Err(ArbiterError::OutOfMemory) => Err(OutOfMemory),
            Err(ArbiterError::TableFull) => unreachable!(),
        }
    }
}

impl World {
    /// One message goes to the frames, for which there is room, and this is its number.
    fn send(&mut self, message: &Message) -> u32
        requires room { 0 < self.old.frames.room }
        requires sound { IsTrue (is_sound message.now) }
        requires few { self.old.sent < most_frames }
        ensures rest { self.new ≡ record self.old { frames = self.new.frames; sent = self.old.sent + 1 } }
        ensures frames { self.new.frames.frames ≡ message.now ∷ self.old.frames.frames }
        ensures number { result ≡ self.old.sent + 1 }
    {
        self.frames.post(message);
        self.sent += 1;
        self.sent
    }

    /// What an arbitrator answers goes to the frames, and these are the numbers of its first and its last frame.
    fn answer(&mut self, from: Who, reply: Option<(Who, Body)>) -> (u32, u32)
        requires room { 0 < self.old.frames.room }
        requires sound { IfSome reply (λ r. IsTrue (is_sound (record { from = from; to = r.0; body = r.1 }))) }
        requires few { self.old.sent < most_frames }
        ensures rest { self.new ≡ record self.old {
          frames = self.new.frames;
          sent = self.old.sent + length (option_to_list reply);
        } }
        ensures frames { self.new.frames.frames ≡ posted from (option_to_list reply) self.old.frames.frames }
        ensures numbers { result ≡ numbers_of self.old.sent (option_to_list reply) }
    {
        match reply {
            None => (0, 0),
            Some((to, body)) => {
                let number = self.send(&Message { from, to, body });
                (number, number)
            }
        }
    }

    /// The running arbitrator at this place hears a message, and there is room for its answer.
    fn hear_at(
        &mut self,
        place: usize,
        message: &Message,
    ) -> Result<Option<(Who, Body)>, OutOfMemory>
        requires can { (w : RuledWorld fabric) × Stands self.old w × CanRule self.old.config w (place + 1) message.now }
        requires place { place < length self.old.seats.items }
        requires events { self.old.events < most_events }
        ensures refused { OnErr result (Same self.old self.new) }
        ensures heard { IfOk result (λ reply. HeardAt self.old self.new place message.now reply) }
    {
        self.frames.reserve(1)?;
        let seat = &mut self.seats[place];
        seat.hear(message)
    }

    /// The running arbitrator at this place takes a message.
    pub(crate) fn rule_at(
        &mut self,
        line: u64,
        place: usize,
        message: &Message,
    ) -> Result<Acted, OutOfMemory>
        requires can { (w : RuledWorld fabric) × Stands self.old w × CanRule self.old.config w (place + 1) message.now }
        requires place { place < length self.old.seats.items }
        requires actor { message.now.to.actor ≡ arbiter_actor (place + 1) }
        requires events { self.old.events < most_events }
        requires frames { self.old.sent < most_frames }
        ensures { (w : RuledWorld fabric) (s : ArbiterState fabric) → Stands self.old w → at (place + 1) w.arbiters ≡ Some s →
            Steps self.old self.new (arbiter_acted fabric w (place + 1) (arbiter_step fabric self.old.config (place + 1) message.now s)) line result }
    {
        let reply = self.hear_at(place, message)?;
        let who = Who {
            actor: message.to.actor,
            instance: 0,
        };
        let sent = self.answer(who, reply);
        self.events += 1;
        Ok(Acted {
            line,
            time: self.time,
            who,
            reading: None,
            sent,
            reports: Batch::new(Vec::new(self.alloc)),
        })
    }
}
