ghost use Rattle.std.specs.Prelude.{◌≡◌};
ghost use Rattle.fabric_terms.specs.declared.message.Body.TheVariants.{Hello};

use fabric_terms::{Body, Message};
use frame_bag::FrameBag;
use ring_points::Who;
use std::test::Fail;

const FIRST: Who = Who {
    actor: 1,
    instance: 1,
};

const SECOND: Who = Who {
    actor: 2,
    instance: 1,
};

fn hello(from: Who, to: Who, mine: u32) -> Message
    ensures { result ≡ record { from = from; to = to; body = Hello mine } }
{
    Message {
        from,
        to,
        body: Body::Hello { mine },
    }
}

/// The session of the frame of this number, if it is a Hello.
fn session(bag: &FrameBag, number: u64) -> Option<u32> {
    let mut message = hello(FIRST, SECOND, 0);
    if !bag.read(number, &mut message) {
        return None;
    }
    match message.body {
        Body::Hello { mine } => Some(mine),
        _ => None,
    }
}

#[test]
fn gives_each_frame_by_its_number(rt: HostRuntime) -> Result<(), Fail> {
    let mut bag = FrameBag::new(rt.alloc());
    bag.reserve(2)?;
    bag.post(&hello(FIRST, SECOND, 7));
    bag.post(&hello(SECOND, FIRST, 9));
    assert!(rt; bag.len() == 2);
    assert!(rt; session(&bag, 0).is_none());
    assert!(rt; session(&bag, 1) == Some(7));
    assert!(rt; session(&bag, 2) == Some(9));
    assert!(rt; session(&bag, 3).is_none());
    Ok(())
}
