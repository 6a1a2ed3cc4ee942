ghost use Rattle.std.specs.Prelude.{◌≡◌, true};
ghost use Rattle.ring_world.specs.Places.{holds_frame};

use fabric_terms::{Body, Message};
use ring_node::Input;
use ring_points::Who;

/// A place that frames are read into, one after the other, as the input that each is to a node. A frame is half a
/// kilobyte: whoever gives many keeps a place for them, which is cleared once, and no frame is moved from there.
#[derive(Drop)]
pub struct FramePlace {
    pub(crate) input: Input,
    ghost has_frame: { holds_frame input ≡ true },
}

impl FramePlace {
    /// A place with some frame.
    pub fn new() -> FramePlace {
        let nobody = Who {
            actor: 0,
            instance: 0,
        };
        FramePlace {
            input: Input::Frame(Message {
                from: nobody,
                to: nobody,
                body: Body::Hello { mine: 0 },
            }),
        }
    }
}
