ghost use Rattle.std.specs.Prelude.{◌≡◌, ◌++◌, ◌∷◌, [], IfOk, OnErr};
ghost use Rattle.std.specs.List.{list_any};
ghost use Rattle.frame_hold.specs.Waits;

use crate::losses::GivesUp;
use fabric_terms::{Body, Message, OutOfMemory};
use ring_points::Epoch;
use std::alloc::Global;
use std::marker::Model;

/// A number whose `done` is owed: what its report gives up, and the reading at which it was written.
#[derive(Clone, Copy, Debug, PartialEq, Eq)]
pub struct Owed {
    number: u64,
    what: GivesUp,
    since: u64,
}

/// The numbers that the parent owes a `done`, the oldest first. Contracts see them as their list.
#[derive(Drop)]
pub struct Holding {
    owed: Vec<Owed>,
}

impl Model for Holding {
    ghost use Rattle.std.specs.Prelude.{List};
    ghost use Rattle.frame_hold.specs.declared.holding.Owed.{Owed};

    ghost Value = { List Owed };

    ghost view = { λ h. h.owed.items };
}

/// Whether it is a Transfer of this flight.
fn is_flight(number: u32, body: &Body) -> bool
    ensures { result ≡ Waits.is_flight number body.now }
{
    match body {
        Body::Transfer { flight, .. } => *flight == number,
        _ => false,
    }
}

/// Whether the frame lets another node lead the partition in this epoch or a later one.
fn is_of_epoch(wanted: u16, least: Epoch, body: &Body) -> bool
    ensures { result ≡ Waits.is_of_epoch wanted least body.now }
{
    match body {
        Body::Promised {
            partition,
            epoch,
            ..
        } => *partition == wanted && *epoch >= least,
        Body::Adopted {
            partition,
            epoch,
            ..
        } => *partition == wanted && *epoch >= least,
        Body::Appended {
            partition,
            epoch,
            ..
        } => *partition == wanted && *epoch >= least,
        _ => false,
    }
}

/// Whether another node could take over by the frame what is given up.
fn could_take(what: &GivesUp, message: &Message) -> bool
    ensures { result ≡ Waits.could_take what.now message.now }
{
    match what {
        GivesUp::Flight { to, flight } => message.to == *to && is_flight(*flight, &message.body),
        GivesUp::Epoch { partition, epoch } => is_of_epoch(*partition, *epoch, &message.body),
        GivesUp::Ranges => matches!(message.body, Body::Transfer { .. }),
        GivesUp::Everything => false,
    }
}

impl Holding {
    /// No number is open.
    pub fn new(alloc: Global) -> Holding
        ensures { result ≡ [] }
    {
        Holding {
            owed: Vec::new(alloc),
        }
    }

    /// No number is open any more.
    pub fn clear(&mut self)
        ensures { self.new ≡ [] }
    {
        self.owed.clear();
    }

    /// The line of this number gives something up, and was written at this reading. A refused call opens nothing.
    pub fn note(&mut self, number: u64, what: GivesUp, now: u64) -> Result<(), OutOfMemory>
        ensures ok { IfOk result (λ _. self.new ≡
            self.old ++ record { number = number; what = what; since = now } ∷ []) }
        ensures err { OnErr result (self.new ≡ self.old) }
    {
        self.owed.push(Owed {
            number,
            what,
            since: now,
        })?;
        Ok(())
    }

    /// Closes a number, and says whether it was open.
    pub fn done(&mut self, number: u64) -> bool
        ensures open { result ≡ list_any (Waits.is_number number) self.old }
        ensures closed { self.new ≡ Waits.without number self.old }
    {
        let is_open = self.owed.iter().any(|owed| owed.number == number);
        keep_others(&mut self.owed, number);
        is_open
    }

    /// Whether a frame waits for a number that is open.
    pub fn waits(&self, message: &Message) -> bool
        ensures { result ≡ Waits.waits self.now message.now }
    {
        self.owed.iter().any(|owed| could_take(&owed.what, message))
    }

    /// Whether a number is owed for longer than this.
    pub fn is_overdue(&self, now: u64, hold: u64) -> bool
        ensures { result ≡ Waits.is_overdue now hold self.now }
    {
        self.owed
            .iter()
            .any(|owed| now.saturating_sub(owed.since) > hold)
    }
}

fn keep_others(owed: &mut Vec<Owed>, number: u64)
    ensures { owed.new.items ≡ Waits.without number owed.old.items }
{
    owed.retain(|one| one.number != number);
}
