// What a start reads before it enters the folder of the actor.
ghost use Rattle.std.specs.Prelude.{IfOk};
ghost use Rattle.fabric_terms.specs.Sound.{IsSound};
ghost use Rattle.service_file.specs.Sound.{IsSoundService};

use crate::serving::Serving;
use fabric_status::Status;
use frame_seal::SealKey;
use serve_edge::{StartFault, read_address, read_file, read_key};
use serve_top::{End, Setup, need_address, read_setup};
use serve_words::Parent;
use std::net::SocketAddr;

/// FILE, the addresses of the options, and the key or why it is refused: that is said in its turn.
#[derive(Drop)]
pub struct Given {
    pub setup: Setup,
    pub listen: Option<SocketAddr>,
    pub page: Option<SocketAddr>,
    pub key: Result<Option<SealKey>, StartFault>,
    /// For how many ticks the parent may owe a `done`, if there is a parent.
    pub hold: Option<u64>,
}

/// For how many ticks a parent may owe a `done`: half a lease if no number is given, and less than a lease.
fn hold_of(lease: u64, parent: Parent) -> Result<u64, End> {
    match parent.hold {
        None => Ok(lease / 2),
        Some(hold) if hold < lease => Ok(hold),
        Some(_) => Err(End::As(Status::Usage)),
    }
}

/// The address of an option.
fn address_of(rt: &HostRuntime, text: Option<&str>) -> Result<Option<SocketAddr>, End> {
    match text {
        None => Ok(None),
        Some(text) => {
            need_address(rt.alloc(), text)?;
            Ok(read_address(text))
        }
    }
}

/// The key of sealed frames, where a file is given.
fn key_of(
    rt: &HostRuntime,
    path: Option<&str>,
    checksum: &[u8; 32],
) -> Result<Option<SealKey>, StartFault> {
    let Some(path) = path else {
        return Ok(None);
    };
    let bytes = read_key(rt, rt.alloc(), path)?;
    match SealKey::new(&bytes, checksum) {
        Some(key) => Ok(Some(key)),
        None => Err(StartFault::Key),
    }
}

/// Reads FILE, the addresses and the key. Paths count from the folder in which the process was started.
pub fn read_given(rt: &HostRuntime, serving: Serving<'_>) -> Result<Given, End>
    ensures sound { IfOk result (λ g. IsSound g.setup.config) }
    ensures settings { IfOk result (λ g. IsSoundService g.setup.config g.setup.settings) }
{
    let bytes = read_file(rt, rt.alloc(), serving.file)?;
    let setup = read_setup(rt.alloc(), &bytes)?;
    let hold = match serving.parent {
        None => None,
        Some(parent) => Some(hold_of(setup.config.lease, parent)?),
    };
    let listen = address_of(rt, serving.options.listen)?;
    let page = address_of(rt, serving.options.page)?;
    let key = key_of(rt, serving.options.key, &setup.checksum);
    Ok(Given {
        setup,
        listen,
        page,
        key,
        hold,
    })
}
