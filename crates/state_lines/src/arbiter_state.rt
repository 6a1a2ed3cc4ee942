ghost use Rattle.std.specs.Prelude.{◌≡◌, ◌++◌, OnOk};
ghost use Rattle.text_fields.specs.Texts.{Keeps};
ghost use Rattle.state_lines.specs.Answers.{lines_text};
ghost use Rattle.state_lines.specs.States.{arbiter_state_of, ruled_by};

use crate::line::line_arbiter;
use crate::node_state::push_session;
use crate::session_facts::SessionFacts;
use arbiter_core::Arbiter;
use fabric_terms::OutOfMemory;

/// Appends the state of the arbitrator of this number, line by line. The last line of the answer, `done`, is the
/// caller's.
#[tactic(auto, unfolding(crate::specs::States::arbiter_state_of))]
pub fn push_arbiter_state(
    into: &mut Vec<u8>,
    tag: Option<u32>,
    number: u8,
    arbiter: &Arbiter,
    facts: SessionFacts,
) -> Result<(), OutOfMemory>
    ensures ok { OnOk result (into.new.items ≡ into.old.items
        ++ lines_text tag (arbiter_state_of number (ruled_by arbiter.now) facts)) }
    ensures kept { Keeps into.old.items into.new.items }
{
    line_arbiter(into, tag, number, arbiter.entries() as u64)?;
    push_session(into, tag, facts)
}
