ghost use Rattle.std.specs.Prelude.{◌≡◌, ◌≤◌, ◌<◌, ◌==◌, length, is_some, unwrap_or, Some};
ghost use Rattle.std.specs.List.{position_from, position_or_len};
ghost use Rattle.arbiter_quorum.specs.Counted.{count_given};
ghost use Rattle.unit_rules.specs.Polls.{answered, poll_of, is_carried, has_answered, waiting};

use arbiter_quorum::is_majority;
use arrayvec::ArrayVec;
use ring_points::MAX_ARBITRATORS;
use std::marker::Model;

/// Those that are asked, at most `MAX_ARBITRATORS`, each with its answer once it came. Contracts see them as a list, in
/// the order in which they are asked.
#[derive(Drop)]
pub struct Poll<A> {
    entries: ArrayVec<(u16, Option<A>), MAX_ARBITRATORS>,
}

impl<A> Model for Poll<A> {
    ghost use Rattle.std.specs.Prelude.{◌≤◌, List, Option, ℕ, length};
    ghost use Rattle.ring_points.specs.Limits.{most_arbiters};

    ghost Value = { List (ℕ × Option A) };

    ghost view = { λ p. p.entries.items };

    ghost invariant = { λ p. length p.entries.items ≤ most_arbiters };
}

fn find<A>(entries: &[(u16, Option<A>)], actor: u16) -> Option<usize>
    ensures { result ≡ position_from (λ e. e.0 == actor) 0 entries.now }
{
    entries.iter().position(|entry| entry.0 == actor)
}

/// The place of an actor among those that are asked, their number where it is not asked.
#[tactic(auto, using(crate::proofs::Polled::found, crate::proofs::Polled::missing))]
fn place_of<A>(entries: &[(u16, Option<A>)], actor: u16) -> usize
    ensures { result ≡ position_or_len (λ e. e.0 == actor) entries.now }
{
    match find(entries, actor) {
        Some(i) => i,
        None => entries.len(),
    }
}

/// The first answer counts.
fn keep_first<A: Drop>(kept: &mut Option<A>, answer: A)
    ensures { kept.new ≡ Some (unwrap_or kept.old answer) }
{
    if kept.is_none() {
        *kept = Some(answer);
    }
}

/// Counts this answer, where the actor is asked and has not answered yet.
#[tactic(auto, using(crate::proofs::Polled::unasked_at, crate::proofs::Polled::asked_at))]
fn count_answer<A: Drop>(entries: &mut [(u16, Option<A>)], actor: u16, answer: A)
    ensures { entries.new ≡ answered actor answer entries.old }
{
    let i = place_of(entries, actor);
    if i < entries.len() {
        keep_first(&mut entries[i].1, answer);
    }
}

/// How many have answered.
fn count_given<A>(entries: &[(u16, Option<A>)]) -> usize
    ensures count { result ≡ count_given is_some entries.now }
    ensures few { result ≤ length entries.now }
{
    entries.iter().filter(|entry| entry.1.is_some()).count()
}

/// Whether a majority has answered.
fn are_carried<A>(entries: &[(u16, Option<A>)]) -> bool
    requires { length entries.now ≤ MAX_ARBITRATORS }
    ensures { result ≡ is_carried entries.now }
{
    is_majority(entries.len() as u8, count_given(entries))
}

/// Those that have not answered.
#[tactic(auto, using(crate::proofs::Polled::waits, crate::proofs::Polled::waits_not))]
fn waiting_in<A>(entries: &[(u16, Option<A>)]) -> ArrayVec<u16, MAX_ARBITRATORS>
    requires { length entries.now ≤ MAX_ARBITRATORS }
    ensures { result.items ≡ waiting entries.now }
{
    let mut actors = ArrayVec::new();
    for entry in entries {
        if entry.1.is_none() {
            actors.push(entry.0);
        }
    }
    actors
}

/// The same again.
fn copied(entries: &[(u16, Option<()>)]) -> ArrayVec<(u16, Option<()>), MAX_ARBITRATORS>
    requires { length entries.now ≤ MAX_ARBITRATORS }
    ensures { result.items ≡ entries.now }
{
    let mut copy = ArrayVec::new();
    for entry in entries {
        copy.push(*entry);
    }
    copy
}

impl Poll<()> {
    /// The same again.
    pub fn copy(&self) -> Self
        ensures { result ≡ self.now }
    {
        Poll {
            entries: copied(self.entries()),
        }
    }
}

impl<A: Drop> Poll<A> {
    /// Nobody has answered yet.
    pub fn new(actors: &[u16]) -> Self
        requires { length actors.now ≤ MAX_ARBITRATORS }
        ensures { result ≡ poll_of actors.now }
    {
        let mut entries = ArrayVec::new();
        for actor in actors {
            entries.push((*actor, None));
        }
        Poll { entries }
    }

    /// Counts this answer, where the actor is asked and has not answered yet.
    pub fn answer(&mut self, actor: u16, answer: A)
        ensures { self.new ≡ answered actor answer self.old }
    {
        count_answer(self.entries.as_mut_slice(), actor, answer);
    }

    /// Those that are asked, each with its answer.
    pub fn entries(&self) -> &[(u16, Option<A>)]
        ensures entries { result.now ≡ self.now }
        ensures few { length result.now ≤ MAX_ARBITRATORS }
    {
        self.entries.as_slice()
    }

    /// Whether this one has answered.
    pub fn has_answered(&self, actor: u16) -> bool
        ensures { result ≡ has_answered actor self.now }
    {
        self.entries
            .as_slice()
            .iter()
            .any(|entry| entry.0 == actor && entry.1.is_some())
    }

    /// Whether a majority of the asked has answered.
    pub fn is_carried(&self) -> bool
        ensures { result ≡ is_carried self.now }
    {
        are_carried(self.entries())
    }

    /// Those that have not answered.
    pub fn waiting(&self) -> ArrayVec<u16, MAX_ARBITRATORS>
        ensures { result.items ≡ waiting self.now }
    {
        waiting_in(self.entries())
    }
}
