// How the entries of a state's lists are written.
ghost use Rattle.std.specs.Prelude.{◌≡◌, ◌++◌, OnOk, codes};
ghost use Rattle.text_fields.specs.Epochs.{epoch_text};
ghost use Rattle.text_fields.specs.Intervals.{interval_text};

use crate::array::Entry;
use crate::state::{ChangeFact, LinkFact, ReplicaFact};
use door_lines::{link_word, push_number_behind, push_who_behind, role_word};
use fabric_terms::OutOfMemory;
use ring_points::{Epoch, Interval};
use text_fields::{push_bytes, push_epoch, push_number, push_point};

impl Entry for u16 {
    ghost use Rattle.std.specs.Prelude.{decimal};

    ghost spelled = { λ n. decimal n };

    fn push_to(&self, into: &mut Vec<u8>) -> Result<(), OutOfMemory> {
        push_number(into, u64::from(*self))
    }
}

fn push_interval(into: &mut Vec<u8>, i: Interval) -> Result<(), OutOfMemory>
    ensures { OnOk result (into.new.items ≡ into.old.items ++ interval_text i) }
{
    push_point(into, i.lo)?;
    push_bytes(into, b"-")?;
    push_point(into, i.hi)
}

impl Entry for Interval {
    ghost use Rattle.status_page.specs.States.{interval_entry};

    ghost spelled = { λ i. interval_entry i };

    #[tactic(auto, unfolding(crate::specs::States::interval_entry))]
    fn push_to(&self, into: &mut Vec<u8>) -> Result<(), OutOfMemory> {
        push_bytes(into, b"\"")?;
        push_interval(into, *self)?;
        push_bytes(into, b"\"")
    }
}

impl Entry for LinkFact {
    ghost use Rattle.status_page.specs.States.{link_entry};

    ghost spelled = { λ l. link_entry l };

    #[tactic(auto, unfolding(crate::specs::States::link_entry))]
    fn push_to(&self, into: &mut Vec<u8>) -> Result<(), OutOfMemory> {
        push_who_behind(into, b"{\"peer\":\"", self.peer)?;
        push_bytes(into, b"\",\"state\":\"")?;
        push_bytes(into, link_word(self.state))?;
        push_number_behind(into, b"\",\"length\":", self.length)?;
        push_bytes(into, b"}")
    }
}

/// Appends an epoch as a field.
fn push_epoch_field(into: &mut Vec<u8>, epoch: Epoch) -> Result<(), OutOfMemory>
    ensures { OnOk result (into.new.items ≡ into.old.items ++ (codes ",\"epoch\":\"" ++ epoch_text epoch)) }
{
    push_bytes(into, b",\"epoch\":\"")?;
    push_epoch(into, epoch)
}

impl Entry for ReplicaFact {
    ghost use Rattle.status_page.specs.States.{replica_entry};

    ghost spelled = { λ r. replica_entry r };

    #[tactic(auto, unfolding(crate::specs::States::replica_entry))]
    fn push_to(&self, into: &mut Vec<u8>) -> Result<(), OutOfMemory> {
        push_number_behind(into, b"{\"partition\":", u64::from(self.partition))?;
        push_epoch_field(into, self.epoch)?;
        push_bytes(into, b"\",\"role\":\"")?;
        push_bytes(into, role_word(self.role))?;
        push_number_behind(into, b"\",\"last\":", u64::from(self.last))?;
        push_bytes(into, b"}")
    }
}

impl Entry for ChangeFact {
    ghost use Rattle.status_page.specs.States.{change_entry};

    ghost spelled = { λ x. change_entry x };

    #[tactic(auto, unfolding(crate::specs::States::change_entry))]
    fn push_to(&self, into: &mut Vec<u8>) -> Result<(), OutOfMemory> {
        push_number_behind(into, b"{\"partition\":", u64::from(self.partition))?;
        push_epoch_field(into, self.epoch)?;
        push_number_behind(into, b"\",\"ticks\":", self.ticks)?;
        push_bytes(into, b"}")
    }
}
