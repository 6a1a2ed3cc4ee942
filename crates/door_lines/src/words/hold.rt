// What a parent is answered.
ghost use Rattle.std.specs.Prelude.{◌≡◌, ◌++◌, OnOk};
ghost use Rattle.text_fields.specs.Texts.{Keeps};
ghost use Rattle.door_lines.specs.Words.{Held, Unheld, Leads, Follows, words_text};

use crate::pair::{push_epoch_behind, push_number_behind};
use fabric_terms::OutOfMemory;
use ring_points::{Epoch, Point};
use text_fields::{push_bytes, push_point};

/// Appends that the parent may serve a point for so many ticks, counted from the sending of its question.
pub fn push_held(into: &mut Vec<u8>, point: Point, ticks: u64) -> Result<(), OutOfMemory>
    ensures ok { OnOk result (into.new.items ≡ into.old.items ++ words_text (Held point.0 ticks)) }
    ensures kept { Keeps into.old.items into.new.items }
{
    push_bytes(into, b"held ")?;
    push_point(into, point.0)?;
    push_number_behind(into, b" ", ticks)
}

/// Appends that the parent may not serve a point.
pub fn push_unheld(into: &mut Vec<u8>, point: Point) -> Result<(), OutOfMemory>
    ensures ok { OnOk result (into.new.items ≡ into.old.items ++ words_text (Unheld point.0)) }
    ensures kept { Keeps into.old.items into.new.items }
{
    push_bytes(into, b"unheld ")?;
    push_point(into, point.0)
}

/// Appends that the replica of a partition is the primary of an epoch.
pub fn push_leads(into: &mut Vec<u8>, partition: u16, epoch: Epoch) -> Result<(), OutOfMemory>
    ensures ok { OnOk result (into.new.items ≡ into.old.items ++ words_text (Leads partition epoch)) }
    ensures kept { Keeps into.old.items into.new.items }
{
    push_number_behind(into, b"leads ", u64::from(partition))?;
    push_epoch_behind(into, epoch)
}

/// Appends that the replica of a partition is no primary.
pub fn push_follows(into: &mut Vec<u8>, partition: u16) -> Result<(), OutOfMemory>
    ensures ok { OnOk result (into.new.items ≡ into.old.items ++ words_text (Follows partition)) }
    ensures kept { Keeps into.old.items into.new.items }
{
    push_number_behind(into, b"follows ", u64::from(partition))
}
