ghost use Rattle.std.specs.Prelude.{◌≡◌, IfOk, IfSome};
ghost use Rattle.fabric_steward.specs.Afterwards.{advised, command_given};
ghost use Rattle.fabric_steward.specs.Departures.{departure_of};
ghost use Rattle.fabric_steward.specs.Dues.{due};
ghost use Rattle.fabric_steward.specs.Noted.{noted};
ghost use Rattle.fabric_steward.specs.Policies.{fresh_policy};
ghost use Rattle.fabric_terms.specs.Ranges.{FitsCommand};
ghost use Rattle.fabric_terms.specs.Sound.{IsSound};
ghost use Rattle.service_file.specs.Sound.{IsSoundService};

use fabric_steward::{Departure, Known, Steward};
use fabric_terms::{Command, FabricConfig, Report};
use ring_rules::Input;
use service_file::ServiceSettings;
use std::alloc::{AllocError, Global};
use std::marker::Model;

/// A steward whose settings were read for its configuration, so that its commands are in their ranges. Contracts see
/// it as the steward.
#[derive(Drop)]
pub(crate) struct ReadSteward {
    steward: Steward,
}

impl Model for ReadSteward {
    ghost use Rattle.fabric_steward.specs.Policies.{Policy};
    ghost use Rattle.serve_lives.specs.Read.{WasRead};

    ghost Value = { Policy };

    ghost view = { λ s. s.steward };

    ghost invariant = { λ s. WasRead s.steward };
}

impl ReadSteward {
    /// The steward of node `me`: nothing has happened yet.
    pub(crate) fn new(
        alloc: Global,
        config: &FabricConfig,
        settings: &ServiceSettings,
        me: u16,
    ) -> Result<ReadSteward, AllocError>
        requires config { IsSound config.now }
        requires settings { IsSoundService config.now settings.now }
        ensures { IfOk result (λ s. s ≡ fresh_policy config.now settings.now me) }
    {
        let steward = Steward::new(alloc, config, settings, me)?;
        Ok(ReadSteward { steward })
    }

    /// The command of the first rule that applies.
    pub(crate) fn advise<K: Known>(&mut self, known: &K, now: u64) -> Option<Command>
        ensures command { result ≡ command_given (K.facts known.now) now self.old }
        ensures policy { self.new ≡ advised (K.facts known.now) now self.old }
        ensures fits { IfSome result FitsCommand }
    {
        self.steward.advise(known, now)
    }

    /// Takes in a step of the node.
    pub(crate) fn note(&mut self, input: &Input, told: &[Report])
        ensures { self.new ≡ noted input.now told.now self.old }
    {
        self.steward.note(input, told);
    }

    /// The first reading after this one at which something is over that it waits for.
    pub(crate) fn due(&self, now: u64) -> u64
        ensures { result ≡ due now self.now }
    {
        self.steward.due(now)
    }

    /// How many ticks after an instance has left the next one begins.
    pub(crate) fn join_pause(&self) -> u64
        ensures { result ≡ self.now.join_pause }
    {
        self.steward.join_pause()
    }

    /// It stops at this reading, and the node begins to leave.
    pub(crate) fn leave(self, now: u64) -> Departure
        ensures { result ≡ departure_of self now }
    {
        Departure::new(self.steward, now)
    }
}
