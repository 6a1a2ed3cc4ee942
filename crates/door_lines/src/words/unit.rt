// The state of a replica, and of a reconfiguration.
ghost use Rattle.std.specs.Prelude.{◌≡◌, ◌++◌, OnOk};
ghost use Rattle.text_fields.specs.Texts.{Keeps};
ghost use Rattle.door_lines.specs.Words.{Changing, Replica, role_text, words_text};

use crate::pair::{push_epoch_behind, push_number_behind, push_word};
use fabric_terms::OutOfMemory;
use replica_core::Role;
use ring_points::Epoch;

/// The word of a role.
pub fn role_word(role: Role) -> &'static [u8]
    ensures { result.now ≡ role_text role }
{
    match role {
        Role::None => b"none",
        Role::IdleSecondary => b"idle",
        Role::ActiveSecondary => b"secondary",
        Role::Primary => b"primary",
    }
}

/// Appends a replica: its partition, its epoch, its role, and its last entry.
pub fn push_replica(
    into: &mut Vec<u8>,
    partition: u16,
    epoch: Epoch,
    role: Role,
    last: u32,
) -> Result<(), OutOfMemory>
    ensures ok { OnOk result (into.new.items ≡ into.old.items ++ words_text (Replica partition epoch role last)) }
    ensures kept { Keeps into.old.items into.new.items }
{
    push_number_behind(into, b"replica ", u64::from(partition))?;
    push_epoch_behind(into, epoch)?;
    push_word(into, role_word(role))?;
    push_number_behind(into, b" ", u64::from(last))
}

/// Appends a reconfiguration that is under way: its partition, its epoch, and for how many ticks it is.
pub fn push_changing(
    into: &mut Vec<u8>,
    partition: u16,
    epoch: Epoch,
    ticks: u64,
) -> Result<(), OutOfMemory>
    ensures ok { OnOk result (into.new.items ≡ into.old.items ++ words_text (Changing partition epoch ticks)) }
    ensures kept { Keeps into.old.items into.new.items }
{
    push_number_behind(into, b"changing ", u64::from(partition))?;
    push_epoch_behind(into, epoch)?;
    push_number_behind(into, b" ", ticks)
}
