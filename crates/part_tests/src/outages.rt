ghost use Rattle.std.specs.Prelude.{◌≡◌};
ghost use Rattle.edge_io.specs.Arrivals.{IsListening};

use crate::loopback::Loopback;
use crate::notes::Notes;
use crate::sockets::{FRAME, free_address, listening, other_socket};
use edge_io::{EdgeRefusal, Failed, Links};
use fabric_edge::UdpLinks;
use std::process::Abort;
use std::test::Fail;

#[test]
fn a_send_that_fails_is_said_once_until_one_works(rt: HostRuntime) -> Result<(), Fail> {
    let here = free_address(&rt)?;
    let notes = Notes::new(rt.alloc());
    let machine = Loopback {
        rt: &rt,
        notes: &notes,
        peer: None,
    };
    let mut links = listening(&rt, &machine, 1, &here);
    let too_long = vec![in rt.alloc(); 7; 65_508]?;
    let fails = format!(in rt.alloc(); "fabric: sending to {here} fails: ")?;
    assert_eq!(rt; links.send(1, &here, &too_long), Err(EdgeRefusal::Failed));
    notes.begin(&rt, 1, &fails);
    assert_eq!(rt; links.send(1, &here, &too_long), Err(EdgeRefusal::Failed));
    assert_eq!(rt; links.send(1, "nowhere", b"lost"), Err(EdgeRefusal::Failed));
    assert_eq!(rt; links.send(1, "nowhere", b"lost"), Err(EdgeRefusal::Failed));
    notes.are(
        &rt,
        &["fabric: sending to nowhere fails: invalid input parameter"],
    );
    assert_eq!(rt; links.send(1, &here, FRAME), Ok(()));
    notes.are(&rt, &[]);
    assert_eq!(rt; links.send(1, &here, &too_long), Err(EdgeRefusal::Failed));
    notes.begin(&rt, 1, &fails);
    Ok(())
}

/// What actor 2 receives where it has sent a frame to an address at which nobody listens.
fn refused(
    links: &mut UdpLinks<'_, Loopback<'_>>,
    there: &str,
) -> (Result<(), EdgeRefusal>, Result<Option<usize>, Failed>)
    requires { IsListening 2 links.old.opened }
    ensures { links.new.opened ≡ links.old.opened }
{
    let sent = links.send(2, there, FRAME);
    (sent, links.receive(2, &mut [0; 1500]))
}

/// Opens the endpoint of the actor beside those that listen.
#[tactic(auto, using(crate::proofs::Listening::last_listens))]
fn listen_too(rt: &impl Abort, links: &mut UdpLinks<'_, Loopback<'_>>, actor: u16, at: &str)
    ensures { IsListening actor links.new.opened }
{
    assert_eq!(rt; links.listen(actor, at), Ok(()));
}

// The machine answers a frame to nobody by an error, which the socket's next call gives.
#[test]
fn a_receive_that_fails_is_said_once_until_a_datagram_comes(rt: HostRuntime) -> Result<(), Fail> {
    let (first, here, there) = (free_address(&rt)?, free_address(&rt)?, free_address(&rt)?);
    let notes = Notes::new(rt.alloc());
    let machine = Loopback {
        rt: &rt,
        notes: &notes,
        peer: there.parse().ok(),
    };
    let mut links = listening(&rt, &machine, 1, &first);
    listen_too(&rt, &mut links, 2, &here);
    let fails = format!(in rt.alloc(); "fabric: receiving at {here} fails: ")?;
    assert_eq!(rt; refused(&mut links, &there), (Ok(()), Err(Failed)));
    notes.begin(&rt, 1, &fails);
    assert_eq!(rt; refused(&mut links, &there), (Ok(()), Err(Failed)));
    notes.are(&rt, &[]);
    let socket = other_socket(&rt, &there)?;
    socket.send_to(FRAME, here.as_str())?;
    drop(socket);
    assert_eq!(rt; links.receive(2, &mut [0; 1500]), Ok(Some(FRAME.len())));
    assert_eq!(rt; refused(&mut links, &there), (Ok(()), Err(Failed)));
    notes.begin(&rt, 1, &fails);
    Ok(())
}
