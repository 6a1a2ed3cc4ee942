ghost use Rattle.std.specs.Prelude.{◌≡◌, ◌+◌, ◌∷◌, [], IfOk, nat_le, if◌then◌else◌};
ghost use Rattle.fabric_terms.specs.declared.record.Record.{Record};
ghost use Rattle.token_core.specs.Tokens.{last_number};

use fabric_terms::{OutOfMemory, Record};
use std::alloc::Global;

/// Whether all numbers of instances are used up after so many boots.
pub(crate) fn is_spent(boots: u32) -> bool
    ensures { result ≡ nat_le last_number boots }
{
    boots == u32::MAX
}

/// The instance after so many boots; the last again where all numbers are used up.
pub(crate) fn instance_after(boots: u32) -> u32
    ensures { result ≡ (if nat_le last_number boots then boots else boots + 1) }
{
    boots.saturating_add(1)
}

/// The record of an instance that begins; none where all numbers of instances are used up.
pub(crate) fn boot(alloc: Global, instance: u32, spent: bool) -> Result<Vec<Record>, OutOfMemory>
    ensures { IfOk result (λ v. v.items ≡ (if spent then [] else Record.Boot instance ∷ [])) }
{
    let mut records = Vec::new(alloc);
    if !spent {
        records.push(Record::Boot { instance })?;
    }
    Ok(records)
}
