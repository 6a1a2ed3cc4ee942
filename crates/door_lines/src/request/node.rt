// What a node is asked beside its state: entries of a log, and commands.
ghost use Rattle.std.specs.Prelude.{◌≡◌};
ghost use Rattle.fabric_terms.specs.declared.command.Command.{Command};
ghost use Rattle.text_fields.specs.Fields.{Gives};
ghost use Rattle.door_lines.specs.declared.asked.Request.{Request};
ghost use Rattle.door_lines.specs.Requests.{Puts, command_request_of, log_of, node_request_of};
ghost use Rattle.door_lines.specs.Speakers.{may_command};

use crate::asked::{Request, Speaker};
use fabric_terms::Command;
use line_format::BadLine;
use report_lines::partition_word;
use ring_points::MAX_LOG_ENTRIES;
use sched_text::read_command;
use text_fields::{BadField, after_word, last_number, number_word};

/// The most entries of a log that one answer lists.
pub const MAX_LISTED_ENTRIES: u8 = 64;

/// A partition, the first entry, and how many entries.
#[tactic(auto, unfolding(crate::specs::Requests::log_of))]
fn log_of(words: &[u8]) -> Result<(u16, u32, u8), BadField>
    ensures { Gives (λ x. Request.Log x.0 x.1 x.2) result (log_of words.now) }
{
    let (partition, rest) = partition_word(words)?;
    let (first, rest) = number_word(1, u64::from(MAX_LOG_ENTRIES), rest)?;
    let count = last_number(1, u64::from(MAX_LISTED_ENTRIES), rest)?;
    Ok((partition, first as u32, count as u8))
}

fn may_command(speaker: Speaker, command: &Command) -> bool
    ensures { result ≡ may_command speaker command.now }
{
    match speaker {
        Speaker::NodeClient => true,
        Speaker::ChildClient | Speaker::Parent => !matches!(command, Command::LinkFor(_, _)),
        Speaker::ArbiterClient => false,
    }
}

/// Reads a command that this speaker may give.
#[tactic(auto, unfolding(crate::specs::Requests::command_request_of))]
fn read_command_request(
    speaker: Speaker,
    words: &[u8],
    request: &mut Request,
) -> Result<(), BadLine>
    ensures { Puts result request.old request.new (command_request_of speaker words.now) }
{
    let command = read_command(words)?;
    if !may_command(speaker, &command) {
        return Err(BadLine);
    }
    *request = Request::Command(command);
    Ok(())
}

/// Reads what a node is asked.
#[tactic(auto, unfolding(crate::specs::Requests::node_request_of))]
pub fn read_node_request(
    speaker: Speaker,
    words: &[u8],
    request: &mut Request,
) -> Result<(), BadLine>
    ensures { Puts result request.old request.new (node_request_of speaker words.now) }
{
    if let Ok(rest) = after_word(b"log ", words) {
        let (partition, first, count) = log_of(rest)?;
        *request = Request::Log {
            partition,
            first,
            count,
        };
        Ok(())
    } else {
        read_command_request(speaker, words, request)
    }
}
