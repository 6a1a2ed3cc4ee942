use ring_points::Who;

/// What stands before the body of a frame.
#[derive(Clone, Copy)]
pub struct FrameHead {
    pub version: u8,
    pub kind: u8,
    pub from: Who,
    pub to: Who,
}
