ghost use Rattle.std.specs.Prelude.{◌≡◌};
ghost use Rattle.again_choice.specs.Choices.{Chooses, choice_of, refused};

use crate::candidate::best_of;
use crate::done::{declared_of, done_of};
use crate::folder::{Found, first_fault, missing_arbiter, missing_node};
use crate::refusal::AgainRefusal;
use fabric_terms::FabricConfig;
use service_file::{Again, DeclaredList, MAX_DECLARED};
use std::alloc::Global;

/// What folders lead to: the partitions that are declared, and the instance that begins with the whole ring.
#[derive(Drop)]
pub struct Choice {
    pub partitions: DeclaredList,
    pub again: Again,
}

/// What is wrong with the folders.
fn refused(config: &FabricConfig, checksum: &[u8; 32], folders: &[Found]) -> Option<AgainRefusal>
    ensures { result ≡ refused config.now checksum.now folders.now }
{
    first_fault(config, checksum, folders)
        .or(missing_node(config, folders))
        .or(missing_arbiter(config, folders))
}

/// What the folders of the actors of a configuration with this checksum lead to, or the first refusal.
pub fn choose(
    alloc: Global,
    config: &FabricConfig,
    checksum: &[u8; 32],
    folders: &[Found],
) -> Result<Choice, AgainRefusal>
    ensures { Chooses (choice_of config.now checksum.now folders.now) result }
{
    if let Some(refusal) = refused(config, checksum, folders) {
        return Err(refusal);
    }
    let Some(best) = best_of(folders) else {
        return Err(AgainRefusal::NoNode);
    };
    let done = done_of(alloc, folders)?;
    if done.len() > MAX_DECLARED {
        return Err(AgainRefusal::Many);
    }
    Ok(Choice {
        partitions: DeclaredList::new(declared_of(alloc, done.as_slice())?),
        again: Again {
            node: best.node,
            instance: best.last + 1,
        },
    })
}
