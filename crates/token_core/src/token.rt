ghost use Rattle.std.specs.Prelude.{◌≤◌, ◌≡◌, ◌+◌, [], IfOk, IfErr, OnErr, is_err, nat_le};
ghost use Rattle.std.specs.Option.{option_map, option_copied};
ghost use Rattle.token_core.specs.Tokens.{first_token, announced, frozen_part, is_ready, inherited, last_number};
ghost use Rattle.token_core.specs.Calls.{outcome, freeze_call, undo_call, give_call, take_call, inherit_call};
ghost use Rattle.token_core.specs.Calls.{flight_points};

use crate::freeze::Freeze;
use crate::refusal::TokenRefusal;
use join_phases::Routing;
use ring_points::{Flight, RangeSet};
use std::marker::Model;

/// What a node owns: its ranges, what of them is frozen for a peer and no longer announced, the version
/// of what it announces, and how many flights it has sent.
#[derive(Drop)]
pub struct Token {
    ranges: RangeSet,
    announced: RangeSet,
    freeze: Option<Freeze>,
    version: u32,
    last_flight: u32,
}

impl Model for Token {
    ghost use Rattle.std.specs.Prelude.{◌≡◌, ◌+◌};
    ghost use Rattle.ring_points.specs.Sets.{minus_of};
    ghost use Rattle.token_core.specs.Tokens.{Token, frozen_part};

    ghost Value = { Token };

    ghost view = { λ t. record {
      ranges = t.ranges;
      freeze = t.freeze;
      version = t.version;
      next_flight = t.last_flight + 1;
    } };

    ghost invariant = { λ t. t.announced ≡ minus_of t.ranges (frozen_part t.freeze) };
}

impl Token {
    /// A token with these ranges, of version 1, with nothing frozen.
    pub fn new(ranges: RangeSet) -> Token
        ensures { result ≡ first_token ranges }
    {
        let announced = ranges.copy();
        Token {
            ranges,
            announced,
            freeze: None,
            version: 1,
            last_flight: 0,
        }
    }

    pub fn ranges(&self) -> &RangeSet
        ensures { result.now ≡ self.now.ranges }
    {
        &self.ranges
    }

    /// The ranges without the frozen part.
    pub fn announced(&self) -> &RangeSet
        ensures { result.now ≡ announced self.now }
    {
        &self.announced
    }

    /// The version of the announced ranges, from 1.
    pub fn version(&self) -> u32
        ensures { result ≡ self.now.version }
    {
        self.version
    }

    /// The slot of the freeze, if one stands.
    pub fn frozen_for(&self) -> Option<usize>
        ensures { result ≡ option_map (λ z. z.slot) self.now.freeze }
    {
        self.freeze.as_ref().map(|freeze| freeze.slot)
    }

    /// The version of the freeze, if one stands.
    pub fn frozen_since(&self) -> Option<u32>
        ensures { result ≡ option_map (λ z. z.version) self.now.freeze }
    {
        self.freeze.as_ref().map(|freeze| freeze.version)
    }

    /// Freezes the owned points of a part for a slot: they are announced no more. It is `Busy` where a
    /// freeze stands; else `Empty` where the part has no owned point; else `TooMany` where those points or
    /// the announced ranges would need more than 32 intervals; else `Counters` where no version is left.
    pub fn freeze(
        &mut self,
        _routing: &Routing,
        part: &RangeSet,
        slot: usize,
    ) -> Result<(), TokenRefusal>
        ensures outcome { outcome result self.new ≡ freeze_call self.old part.now slot }
        ensures err { OnErr result (self.new ≡ self.old) }
    {
        if self.freeze.is_some() {
            return Err(TokenRefusal::Busy);
        }
        let part = self.ranges.meet(part)?;
        if part.intervals().is_empty() {
            return Err(TokenRefusal::Empty);
        }
        let announced = self.ranges.minus(&part)?;
        let version = number_after(self.version)?;
        self.announced = announced;
        self.freeze = Some(Freeze {
            part,
            slot,
            version,
        });
        self.version = version;
        Ok(())
    }

    /// The freeze stands no more, and all ranges are announced again. It is `NoFreeze` where none stands;
    /// else `Counters` where no version is left.
    pub fn undo(&mut self) -> Result<(), TokenRefusal>
        ensures outcome { outcome result self.new ≡ undo_call self.old }
        ensures err { OnErr result (self.new ≡ self.old) }
    {
        if self.freeze.is_none() {
            return Err(TokenRefusal::NoFreeze);
        }
        let version = number_after(self.version)?;
        self.announced = self.ranges.copy();
        self.freeze = None;
        self.version = version;
        Ok(())
    }

    /// Whether a freeze stands and its version is acknowledged, where `least_acked` is the least version
    /// that a link has acknowledged.
    pub fn ready(&self, least_acked: u32) -> bool
        ensures { result ≡ is_ready self.now.freeze least_acked }
    {
        match &self.freeze {
            Some(freeze) => freeze.version <= least_acked,
            None => false,
        }
    }

    /// Gives the frozen part away as the next flight. It is `NoFreeze` where none stands; else `NotReady`
    /// where `least_acked` is below the version of the freeze; else `Counters` where no flight number is
    /// left.
    pub fn give(&mut self, _routing: &Routing, least_acked: u32) -> Result<Flight, TokenRefusal>
        ensures outcome { outcome result self.new ≡ give_call self.old least_acked }
        ensures flight { IfOk result (λ f. f
            ≡ record { number = self.old.next_flight; part = frozen_part self.old.freeze }) }
        ensures err { OnErr result (self.new ≡ self.old) }
    {
        let part = match &self.freeze {
            None => return Err(TokenRefusal::NoFreeze),
            Some(freeze) if least_acked < freeze.version => return Err(TokenRefusal::NotReady),
            Some(freeze) => freeze.part.copy(),
        };
        let number = number_after(self.last_flight)?;
        self.ranges = self.announced.copy();
        self.freeze = None;
        self.last_flight = number;
        Ok(Flight { number, part })
    }

    /// Owns a part too. It is `TooMany` where the ranges or the announced ranges would need more than 32
    /// intervals; else `Counters` where no version is left.
    pub fn take(&mut self, part: &RangeSet) -> Result<(), TokenRefusal>
        ensures outcome { outcome result self.new ≡ take_call self.old part.now }
        ensures err { OnErr result (self.new ≡ self.old) }
    {
        let ranges = self.ranges.union(part)?;
        let announced = match &self.freeze {
            None => ranges.copy(),
            Some(freeze) => ranges.minus(&freeze.part)?,
        };
        let version = number_after(self.version)?;
        self.ranges = ranges;
        self.announced = announced;
        self.version = version;
        Ok(())
    }

    /// Owns the points of a record and of a flight too, and gives what was not owned before. It is
    /// `TooMany` where that, the ranges or the announced ranges would need more than 32 intervals; else
    /// `Counters` where no version is left.
    pub fn inherit(
        &mut self,
        held: &RangeSet,
        flight: Option<&RangeSet>,
    ) -> Result<RangeSet, TokenRefusal>
        ensures outcome { outcome result self.new ≡ inherit_call self.old held.now
            (flight_points (option_copied flight.entry)) }
        ensures added { IfOk result (λ r. r ≡ inherited self.old held.now (flight_points (option_copied flight.entry))) }
        ensures err { OnErr result (self.new ≡ self.old) }
    {
        let none = RangeSet::new();
        let added = held.union_without(flight.unwrap_or(&none), &self.ranges)?;
        self.take(&added)?;
        Ok(added)
    }

    /// Owns nothing any more, as a node that leaves, and says so by this version,
    /// which is not above the present one.
    pub fn leave(&mut self, version: u32)
        requires { version ≤ self.old.version }
        ensures { self.new ≡ record self.old { ranges = []; freeze = None; version = version } }
    {
        self.ranges = RangeSet::new();
        self.announced = RangeSet::new();
        self.freeze = None;
        self.version = version;
    }

    /// Whether the time of a take-over has come, both in ticks of one clock.
    pub fn ripen(now: u64, ripe: u64) -> bool
        ensures { result ≡ nat_le ripe now }
    {
        ripe <= now
    }
}

/// The number after this one. It is `Counters` after the last.
fn number_after(number: u32) -> Result<u32, TokenRefusal>
    ensures ok { IfOk result (λ next. next ≡ number + 1) }
    ensures counters { is_err result ≡ nat_le last_number number }
    ensures err { IfErr result (λ e. e ≡ TokenRefusal.Counters) }
{
    number.checked_add(1).ok_or(TokenRefusal::Counters)
}
