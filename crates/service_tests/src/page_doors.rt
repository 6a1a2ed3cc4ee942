//! The door of a page in memory: which heads it gives, and that it has none between them.
use door_io::{MAX_HEAD, MemPageDoor, PageDoor, ScriptedHead};
use std::alloc::{AllocError, Global};

const HEAD: &[u8] = b"GET / HTTP/1.0\r\n\r\n";

/// A head of client 0 that grows, with a quiet moment between, and one of client 1 that has a byte more than fits.
fn script(alloc: Global) -> Result<Vec<ScriptedHead>, AllocError> {
    let mut script = Vec::new(alloc);
    script.push(ScriptedHead::Grown(0, Vec::from_slice(alloc, &HEAD[..6])?))?;
    script.push(ScriptedHead::Quiet)?;
    script.push(ScriptedHead::Grown(0, Vec::from_slice(alloc, HEAD)?))?;
    script.push(ScriptedHead::Grown(1, vec![in alloc; b'x'; MAX_HEAD + 1]?))?;
    Ok(script)
}

#[test]
fn a_page_door_gives_its_script(rt: HostRuntime) {
    let script = script(rt.alloc()).expect(&rt, "memory");
    let mut door = MemPageDoor::new(script, Vec::new(rt.alloc()));
    let mut into = [0; MAX_HEAD];
    assert_eq!(rt; door.next(&mut into), Some((0, 6)));
    assert_eq!(rt; into[..6], b"GET / "[..]);
    assert_eq!(rt; door.next(&mut into), None);
    assert_eq!(rt; door.next(&mut into), Some((0, 18)));
    assert_eq!(rt; into[..18], HEAD[..]);
    assert_eq!(rt; door.next(&mut into), Some((1, MAX_HEAD)));
    assert_eq!(rt; into[MAX_HEAD - 1], b'x');
    assert_eq!(rt; door.next(&mut into), None);
}
