//! The questions about a partition: its register answers them.

ghost use Rattle.std.specs.Prelude.{◌≡◌};
ghost use Rattle.unit_rules.specs.Registers.{done_received, is_below, is_prepared_for, prepare_received};
ghost use Rattle.unit_rules.specs.Registers.{prepared_epoch, register_of, vote_in, vote_received};
ghost use Rattle.arbiter_core.specs.Arbiters.{Answers, reply_call};
ghost use Rattle.arbiter_core.specs.Memory.{KeepsIfShort};

use crate::answer::{Answer, ArbiterError};
use crate::arbiter::Arbiter;
use fabric_terms::Body;
use ring_points::{Config, Epoch, Who};
use unit_rules::{Preparation, is_above, is_newer};

/// Whether an epoch is below the prepared one. Where nothing was prepared, none is.
fn is_below(prepared: Option<Preparation>, epoch: Epoch) -> bool
    ensures { result ≡ is_below prepared epoch }
{
    match prepared {
        None => false,
        Some(prepared) => epoch < prepared.epoch,
    }
}

/// Whether an epoch is the prepared one, and was prepared for who asks.
fn is_prepared_for(prepared: Option<Preparation>, epoch: Epoch, asker: Who) -> bool
    ensures { result ≡ is_prepared_for prepared epoch asker }
{
    match prepared {
        None => false,
        Some(prepared) => prepared.epoch == epoch && prepared.preparer == asker,
    }
}

/// The prepared epoch, 0.0 where nothing was prepared.
fn prepared_epoch(prepared: Option<Preparation>) -> Epoch
    ensures { result ≡ prepared_epoch prepared }
{
    match prepared {
        None => Epoch::default(),
        Some(prepared) => prepared.epoch,
    }
}

impl Arbiter {
    /// A copy of the done configuration of a partition, if one is.
    fn done(&self, partition: u16) -> Option<Config>
        ensures { result ≡ (register_of partition self.now.registers).done }
    {
        self.registers.done(partition).map(|done| done.copy())
    }

    /// A copy of the first vote of an epoch, if there was one.
    fn vote_of(&self, partition: u16, epoch: Epoch) -> Option<Config>
        ensures { result ≡ vote_in epoch (register_of partition self.now.registers).votes }
    {
        self.registers
            .vote_of(partition, epoch)
            .map(|vote| vote.copy())
    }

    /// Answers a Prepare: an epoch above the prepared one is kept, and answered with what was done; its preparer is
    /// answered so again, and everybody else by the prepared epoch.
    #[tactic(auto, unfolding(unit_rules::specs::Registers::prepare_received))]
    pub(super) fn prepare(
        &mut self,
        asker: Who,
        partition: u16,
        epoch: Epoch,
    ) -> Result<Answer, ArbiterError>
        ensures answers { Answers (reply_call asker
            (prepare_received partition epoch asker (register_of partition self.old.registers)) self.old)
            self.old self.new result }
        ensures memory { KeepsIfShort (reply_call asker
            (prepare_received partition epoch asker (register_of partition self.old.registers)) self.old) result }
    {
        let prepared = self.registers.prepared(partition);
        let done = self.done(partition);
        if is_above(prepared, epoch) {
            let kept = self.keep_prepared(partition, epoch, asker)?;
            return Ok(Answer::Reply {
                kept: Some(kept),
                to: asker,
                body: Body::Prepared {
                    partition,
                    epoch,
                    done,
                },
            });
        }
        let body = if is_prepared_for(prepared, epoch, asker) {
            Body::Prepared {
                partition,
                epoch,
                done,
            }
        } else {
            Body::NoPrepare {
                partition,
                epoch,
                kept: prepared_epoch(prepared),
            }
        };
        Ok(Answer::Reply {
            kept: None,
            to: asker,
            body,
        })
    }

    /// Answers a Vote: the first vote of an epoch is kept, and answered from then on. Nothing below the prepared epoch
    /// is voted for.
    #[tactic(auto, unfolding(unit_rules::specs::Registers::vote_received))]
    pub(super) fn vote(&mut self, asker: Who, config: &Config) -> Result<Answer, ArbiterError>
        ensures answers { Answers (reply_call asker
            (vote_received config.now (register_of config.now.partition self.old.registers)) self.old)
            self.old self.new result }
        ensures memory { KeepsIfShort (reply_call asker
            (vote_received config.now (register_of config.now.partition self.old.registers)) self.old) result }
    {
        let (partition, epoch) = (config.partition, config.epoch);
        let prepared = self.registers.prepared(partition);
        if is_below(prepared, epoch) {
            return Ok(Answer::Reply {
                kept: None,
                to: asker,
                body: Body::NoVote {
                    partition,
                    epoch,
                    kept: prepared_epoch(prepared),
                },
            });
        }
        if let Some(first) = self.vote_of(partition, epoch) {
            return Ok(Answer::Reply {
                kept: None,
                to: asker,
                body: Body::Voted {
                    partition,
                    epoch,
                    kept: first,
                },
            });
        }
        let kept = self.keep_vote(config)?;
        Ok(Answer::Reply {
            kept: Some(kept),
            to: asker,
            body: Body::Voted {
                partition,
                epoch,
                kept: config.copy(),
            },
        })
    }

    /// Answers a DoneAsk: a configuration above the done one is kept. Nothing below the prepared epoch is.
    #[tactic(auto, unfolding(unit_rules::specs::Registers::done_received))]
    pub(super) fn finish(&mut self, asker: Who, config: &Config) -> Result<Answer, ArbiterError>
        ensures answers { Answers (reply_call asker
            (done_received config.now (register_of config.now.partition self.old.registers)) self.old)
            self.old self.new result }
        ensures memory { KeepsIfShort (reply_call asker
            (done_received config.now (register_of config.now.partition self.old.registers)) self.old) result }
    {
        let (partition, epoch) = (config.partition, config.epoch);
        let prepared = self.registers.prepared(partition);
        if !is_below(prepared, epoch) {
            let kept = if is_newer(epoch, self.registers.done(partition)) {
                Some(self.keep_done(config)?)
            } else {
                None
            };
            return Ok(Answer::Reply {
                kept,
                to: asker,
                body: Body::DoneKept { partition, epoch },
            });
        }
        Ok(Answer::Reply {
            kept: None,
            to: asker,
            body: Body::NoDone {
                partition,
                epoch,
                kept: prepared_epoch(prepared),
            },
        })
    }
}
