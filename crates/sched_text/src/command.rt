ghost use Rattle.std.specs.Prelude.{◌≡◌, IfOk, OnErr};
ghost use Rattle.fabric_terms.specs.declared.command.Command.{Command};
ghost use Rattle.text_fields.specs.Fields.{Gives, whole_of};
ghost use Rattle.line_format.specs.Commands.{members_of, link_of, give_of, text_of, in_partition, partition_command_of};
ghost use Rattle.line_format.specs.Commands.{command_of};

use fabric_terms::{Command, Payload};
use line_format::BadLine;
use report_lines::{last_name, partition_word, text_of};
use ring_points::{MAX_LEASE, MAX_MEMBERS, MAX_WRITE, MIN_LEASE, Point};
use text_fields::{BadField, after_word, last_node, last_number, last_point, last_span, node_at};

fn members_of(bytes: &[u8]) -> Result<u8, BadField>
    ensures { Gives (λ x. x) result (members_of bytes.now) }
{
    Ok(last_number(1, MAX_MEMBERS as u64, bytes)? as u8)
}

// The command, where nothing is left.
fn whole_of(command: Command, rest: &[u8]) -> Result<Command, BadLine>
    ensures { Gives (λ x. x) result (whole_of command rest.now) }
{
    if rest.is_empty() {
        Ok(command)
    } else {
        Err(BadLine)
    }
}

#[tactic(auto, unfolding(line_format::specs::Commands::link_of))]
fn link_of(words: &[u8]) -> Result<Command, BadLine>
    ensures { Gives (λ x. x) result (link_of words.now) }
{
    let (node, rest) = node_at(words)?;
    if let Ok(lease) = after_word(b" for ", rest) {
        let lease = last_number(MIN_LEASE, MAX_LEASE, lease)?;
        Ok(Command::LinkFor(node, lease))
    } else {
        whole_of(Command::Link(node), rest)
    }
}

#[tactic(auto, unfolding(line_format::specs::Commands::give_of))]
fn give_of(words: &[u8]) -> Result<Command, BadLine>
    ensures { Gives (λ x. x) result (give_of words.now) }
{
    let (node, rest) = node_at(words)?;
    if let Ok(rest) = after_word(b" near", rest) {
        whole_of(Command::GiveNear(node), rest)
    } else {
        whole_of(Command::GiveAll(node), after_word(b" all", rest)?)
    }
}

fn write_of(words: &[u8]) -> Result<Command, BadLine>
    ensures { Gives (λ x. x) result (in_partition (text_of 1 MAX_WRITE) Command.Write words.now) }
{
    let (partition, rest) = partition_word(words)?;
    Ok(Command::Write(partition, Payload::from_slice(text_of(MAX_WRITE, rest)?)))
}

#[tactic(auto, unfolding(line_format::specs::Commands::partition_command_of))]
fn partition_command_of(words: &[u8]) -> Result<Command, BadLine>
    ensures { Gives (λ x. x) result (partition_command_of words.now) }
{
    if let Ok(rest) = after_word(b"create ", words) {
        let (partition, rest) = partition_word(rest)?;
        Ok(Command::Create(partition, members_of(rest)?))
    } else if let Ok(rest) = after_word(b"swap ", words) {
        let (partition, rest) = partition_word(rest)?;
        Ok(Command::Swap(partition, last_node(rest)?))
    } else if let Ok(rest) = after_word(b"heal ", words) {
        let (partition, rest) = partition_word(rest)?;
        Ok(Command::Heal(partition, members_of(rest)?))
    } else if let Ok(rest) = after_word(b"lose ", words) {
        let (partition, rest) = partition_word(rest)?;
        Ok(Command::Lose(partition, last_node(rest)?))
    } else if let Ok(rest) = after_word(b"write ", words) {
        write_of(rest)
    } else if let Ok(rest) = after_word(b"units ", words) {
        Ok(Command::Units(last_span(rest)?))
    } else if let Ok(rest) = after_word(b"resolve ", words) {
        let (partition, rest) = partition_word(rest)?;
        Ok(Command::Resolve(partition, last_name(rest)?))
    } else {
        let (partition, rest) = partition_word(after_word(b"names ", words)?)?;
        Ok(Command::Names(partition, last_span(rest)?))
    }
}

/// The command of these words, as they stand behind `do N`. BadLine comes exactly where the bytes are
/// none.
#[tactic(auto, unfolding(line_format::specs::Commands::command_of))]
pub fn read_command(words: &[u8]) -> Result<Command, BadLine>
    ensures ok { IfOk result (λ c. command_of words.now ≡ Some c) }
    ensures err { OnErr result (command_of words.now ≡ None) }
{
    if let Ok(rest) = after_word(b"link ", words) {
        link_of(rest)
    } else if let Ok(rest) = after_word(b"part ", words) {
        Ok(Command::Part(last_node(rest)?))
    } else if let Ok(rest) = after_word(b"give ", words) {
        give_of(rest)
    } else if let Ok(rest) = after_word(b"join ", words) {
        Ok(Command::Join(last_node(rest)?))
    } else if let Ok(rest) = after_word(b"find ", words) {
        Ok(Command::Find(Point(last_point(rest)?)))
    } else {
        partition_command_of(words)
    }
}
