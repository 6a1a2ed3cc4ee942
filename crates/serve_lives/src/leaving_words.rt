// The commands of a node that leaves.
ghost use Rattle.std.specs.Prelude.{◌≡◌, true};
ghost use Rattle.fabric_terms.specs.Ranges.{FitsCommand, IsMembers, IsNode};
ghost use Rattle.serve_lives.specs.Courses.{is_count, is_leaving_word, is_number, parting_advice};

use fabric_steward::Parting;
use fabric_terms::Command;
use ring_points::{MAX_MEMBERS, MAX_NODE_NUMBER};
use serve_turns::Advice;

/// Whether nodes have this number.
fn is_number(node: u16) -> bool
    ensures is { result ≡ is_number node }
    ensures node { result ≡ true → IsNode node }
{
    1 <= node && node <= MAX_NODE_NUMBER
}

/// Whether partitions may have so many replicas.
fn is_count(count: u8) -> bool
    ensures is { result ≡ is_count count }
    ensures members { result ≡ true → IsMembers count }
{
    1 <= count && count as usize <= MAX_MEMBERS
}

/// Whether it is a command of a node that leaves, with numbers that nodes and partitions have.
fn is_leaving_word(command: &Command) -> bool
    ensures is { result ≡ is_leaving_word command.now }
    ensures fits { result ≡ true → FitsCommand command.now }
{
    match command {
        Command::Heal(partition, count) => {
            // A partition of two bytes is in its range.
            let _partition = *partition;
            is_count(*count)
        }
        Command::Swap(partition, node) => {
            let _partition = *partition;
            is_number(*node)
        }
        Command::GiveAll(node) => is_number(*node),
        Command::Part(node) => is_number(*node),
        _ => false,
    }
}

/// What a node does that leaves: the next command of its plan, if its numbers are in their ranges.
pub(crate) fn parting_advice(parting: Parting) -> Advice
    ensures { result ≡ parting_advice parting }
{
    match parting {
        Parting::Say(command) => {
            if is_leaving_word(&command) {
                Advice::Say(command)
            } else {
                Advice::Nothing
            }
        }
        Parting::Wait(_) => Advice::Nothing,
        Parting::Gone => Advice::Gone,
    }
}
