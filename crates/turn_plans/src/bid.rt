ghost use Rattle.std.specs.Prelude.{◌≡◌, ◌≤◌, IfOk, Some};
ghost use Rattle.line_format.specs.Commands.{command_of};
ghost use Rattle.text_fields.specs.Fields.{Gives};
ghost use Rattle.turn_plans.specs.Bids.{bid, bid_of, cluster_bid_of, node_bid_of};

use crate::crew::Crew;
use fabric_terms::Command;
use line_format::BadLine;
use sched_text::read_command;
use text_fields::{node_word, number_word};

/// A command to a node, in a turn, and the words that spell it.
#[derive(Drop)]
pub struct Bid<'a> {
    pub turn: u64,
    pub node: u16,
    pub command: Command,
    pub words: &'a [u8],
}

/// A line of one node: `<turn> <command>`.
fn node_bid_of<'a>(node: u16, least: u64, turns: u64, line: &'a [u8]) -> Result<Bid<'a>, BadLine>
    ensures read { Gives (λ b. bid b.turn b.node b.command) result (node_bid_of node least turns line.now) }
    ensures turn { IfOk result (λ b. least ≤ b.turn) }
    ensures words { IfOk result (λ b. command_of b.words.now ≡ Some b.command) }
{
    let (turn, words) = number_word(least, turns, line)?;
    let command = read_command(words)?;
    Ok(Bid {
        turn,
        node,
        command,
        words,
    })
}

/// A line of a cluster: `<turn> <node> <command>`.
fn cluster_bid_of<'a>(least: u64, turns: u64, line: &'a [u8]) -> Result<Bid<'a>, BadLine>
    ensures read { Gives (λ b. bid b.turn b.node b.command) result (cluster_bid_of least turns line.now) }
    ensures turn { IfOk result (λ b. least ≤ b.turn) }
    ensures words { IfOk result (λ b. command_of b.words.now ≡ Some b.command) }
{
    let (turn, rest) = number_word(least, turns, line)?;
    let (node, words) = node_word(rest)?;
    let command = read_command(words)?;
    Ok(Bid {
        turn,
        node,
        command,
        words,
    })
}

/// What a line bids, in one of the turns from `least` to `turns`. An arbitrator is bidden nothing.
#[tactic(auto, unfolding(crate::specs::Bids::bid_of))]
pub(crate) fn bid_of<'a>(
    crew: Crew,
    least: u64,
    turns: u64,
    line: &'a [u8],
) -> Result<Bid<'a>, BadLine>
    ensures read { Gives (λ b. bid b.turn b.node b.command) result (bid_of crew least turns line.now) }
    ensures turn { IfOk result (λ b. least ≤ b.turn) }
    ensures words { IfOk result (λ b. command_of b.words.now ≡ Some b.command) }
{
    match crew {
        Crew::Node(node) => node_bid_of(node, least, turns, line),
        Crew::Arbiter(_) => Err(BadLine),
        Crew::Cluster => cluster_bid_of(least, turns, line),
    }
}
