ghost use Rattle.std.specs.Prelude.{◌≡◌, ◌++◌, OnOk, map};
ghost use Rattle.text_fields.specs.Texts.{Keeps};
ghost use Rattle.state_lines.specs.Answers.{lines_text};
ghost use Rattle.state_lines.specs.Logs.{entries_from, entry_line, log_of};

use crate::line::line_entry;
use fabric_terms::OutOfMemory;
use node_core::NodeCore;
use replica_core::Entry;

/// The entries of a log from this number on, at most so many.
fn entries_from(log: &[Entry], first: u32, count: u8) -> &[Entry]
    ensures { result.now ≡ entries_from first count log.now }
{
    let start = (first.saturating_sub(1) as usize).min(log.len());
    let entries = &log[start..];
    &entries[..usize::from(count).min(entries.len())]
}

/// Appends entries, one a line.
fn push_entries(
    into: &mut Vec<u8>,
    tag: Option<u32>,
    partition: u16,
    entries: &[Entry],
) -> Result<(), OutOfMemory>
    ensures ok { OnOk result (into.new.items ≡ into.old.items
        ++ lines_text tag (map (entry_line partition) entries.now)) }
    ensures kept { Keeps into.old.items into.new.items }
{
    for entry in entries {
        line_entry(into, tag, partition, entry)?;
    }
    Ok(())
}

/// Appends the entries of the node's own replica of a partition, from a number on, at most so many. There are none
/// where the node has no such replica. They may never be committed.
#[tactic(auto, unfolding(crate::specs::Logs::log_of))]
pub fn push_log(
    into: &mut Vec<u8>,
    tag: Option<u32>,
    core: &NodeCore,
    partition: u16,
    first: u32,
    count: u8,
) -> Result<(), OutOfMemory>
    ensures ok { OnOk result (into.new.items ≡ into.old.items
        ++ lines_text tag (log_of core.now.state partition first count)) }
    ensures kept { Keeps into.old.items into.new.items }
{
    match core.replica(partition) {
        Some(replica) => {
            push_entries(
                into,
                tag,
                partition,
                entries_from(replica.log(), first, count),
            )
        }
        None => Ok(()),
    }
}
