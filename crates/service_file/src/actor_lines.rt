ghost use Rattle.std.specs.Prelude.{◌≡◌, ◌++◌, OnOk, IfOk};
ghost use Rattle.text_fields.specs.Actors.{actor_text};
ghost use Rattle.service_file.specs.ActorFiles.{again_text, began_text, head_text};

use crate::actor_file::digits_of;
use crate::settings::Again;
use fabric_terms::OutOfMemory;
use ring_points::ARBITRATORS;
use std::alloc::Global;
use text_fields::{push_bytes, push_number};

fn push_actor(into: &mut Vec<u8>, actor: u16) -> Result<(), OutOfMemory>
    ensures { OnOk result (into.new.items ≡ into.old.items ++ actor_text actor) }
{
    if actor > ARBITRATORS {
        push_bytes(into, b"a")?;
        return push_number(into, u64::from(actor - ARBITRATORS));
    }
    push_number(into, u64::from(actor))
}

/// The first line of the file `actor`, with its line feed.
pub fn head_line(alloc: Global, actor: u16, checksum: &[u8; 32]) -> Result<Vec<u8>, OutOfMemory>
    ensures { IfOk result (λ line. line.items ≡ head_text (actor, checksum.now)) }
{
    let mut line = Vec::new(alloc);
    push_bytes(&mut line, b"fabricd 1 ")?;
    push_actor(&mut line, actor)?;
    push_bytes(&mut line, b" ")?;
    push_bytes(&mut line, &digits_of(checksum))?;
    push_bytes(&mut line, b"\n")?;
    Ok(line)
}

/// The line that says that a record of the actor was synced, with its line feed.
pub fn began_line() -> &'static [u8]
    ensures { result.now ≡ began_text }
{
    b"began\n"
}

/// The line that an instance may begin with the whole ring again, with its line feed.
pub fn again_line(alloc: Global, again: Again) -> Result<Vec<u8>, OutOfMemory>
    ensures { IfOk result (λ line. line.items ≡ again_text again) }
{
    let mut line = Vec::new(alloc);
    push_bytes(&mut line, b"again ")?;
    push_number(&mut line, u64::from(again.node))?;
    push_bytes(&mut line, b".")?;
    push_number(&mut line, u64::from(again.instance))?;
    push_bytes(&mut line, b"\n")?;
    Ok(line)
}
