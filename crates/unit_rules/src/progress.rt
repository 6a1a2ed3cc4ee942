use ring_points::{Epoch, Who};

/// A Sync that a replica took: of which epoch, whose log up to which entry, and who asked.
#[derive(Clone, Copy)]
pub struct CatchUp {
    pub epoch: Epoch,
    pub origin: u16,
    pub last: u32,
    pub asker: Who,
}

/// Another member, as the primary knows it.
#[derive(Clone, Copy, Default)]
pub struct PeerProgress {
    pub node: u16,
    /// The last entry that it confirmed. It only rises.
    pub confirmed: u32,
    /// The entry that it is sent next. It follows what the member says, so it may fall, and may be one above all
    /// numbers of four bytes.
    pub next: u64,
}
