use ring_points::FRAME_LIMIT;
use std::alloc::Global;

/// Memory for the bytes of a frame and the text of a step's reports. Whoever carries out many steps has one of these, so
/// that no step clears or takes any.
#[derive(Drop)]
pub struct Buffers {
    pub(crate) frame: [u8; FRAME_LIMIT],
    pub(crate) text: Vec<u8>,
}

impl Buffers {
    /// Buffers with nothing in them.
    pub fn new(alloc: Global) -> Self {
        Buffers {
            frame: [0u8; FRAME_LIMIT],
            text: Vec::new(alloc),
        }
    }
}
