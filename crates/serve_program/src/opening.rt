// What a start opens: the endpoint, the door and the page.
ghost use Rattle.std.specs.Prelude.{OnOk};
ghost use Rattle.fabric_turns.specs.Runs.{AllListen};
ghost use Rattle.serve_rules.specs.Services.{IsService};

use crate::counted_door::CountedDoor;
use crate::counted_log::CountedLog;
use crate::started::Started;
use door_io::ClientDevices;
use edge_io::{EdgeRefusal, Links};
use fabric_status::Status;
use serve_edge::{PageSockets, ServedDoor, SocketDoor, StdoutLog, bind_door, bind_page};
use serve_top::{End, TalliedClients};
use serve_turns::Service;
use std::net::SocketAddr;

/// The door with the log, as the process has them.
pub type Clients<'a> = TalliedClients<
    'a,
    ClientDevices<CountedDoor<'a>, CountedLog<'a, HostRuntime>>,
>;

/// Opens the endpoint of the actor.
#[tactic(auto, using(crate::proofs::Listening::now_listen))]
pub fn open_endpoint<N: Links>(service: &Service, links: &mut N) -> Result<(), End>
    requires { IsService service.now.plan }
    ensures { OnOk result (AllListen service.now.plan (N.opened links.new)) }
{
    match links.listen(service.actor(), service.plan.address_at(0)) {
        Ok(()) => Ok(()),
        Err(EdgeRefusal::Failed) => Err(End::As(Status::LinkFault)),
        Err(EdgeRefusal::OutOfMemory) => Err(End::As(Status::OutOfMemory)),
    }
}

/// Opens the door, in place of a stale one.
pub fn open_door<'a>(started: Started<'a>) -> Result<Clients<'a>, End> {
    let listener = bind_door(started.rt)?;
    let door = SocketDoor::new(started.clients, listener);
    let log = StdoutLog::new(started.rt, started.output);
    let devices = ClientDevices {
        door: CountedDoor::new(ServedDoor::new(door, started.parent), started.tally),
        log: CountedLog::new(log, started.tally),
    };
    Ok(TalliedClients::new(devices, started.tally))
}

/// Opens the page, where it has an address.
pub fn open_page<'a>(
    started: Started<'a>,
    address: Option<SocketAddr>,
) -> Result<Option<PageSockets<'a>>, End> {
    let Some(address) = address else {
        return Ok(None);
    };
    let listener = bind_page(started.rt, address)?;
    let page = PageSockets::new(started.rt.alloc(), started.board, listener)?;
    Ok(Some(page))
}
