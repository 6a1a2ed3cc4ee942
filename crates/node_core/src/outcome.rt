use crate::batch::Batch;
use fabric_terms::{Message, Record, Report};

/// What a step leaves to do. Whoever drives a node does it in this order, and takes no input before it is done:
///
/// 1. It appends the records to those of the node, in their order, and syncs them. Where that fails, nothing else of the
///    step is done, and the node stops: a front of the records may be kept, and the next start goes by it.
/// 2. It sends the frames, in their order. One that cannot be sent is lost, as the network may lose any.
/// 3. It makes the reports, in their order. Where that fails the node stops; what it has sent is true.
///
/// A frame that went out before its records are synced would be a promise that a restart forgets.
#[derive(Drop)]
pub struct Outcome {
    pub records: Batch<Record>,
    pub frames: Batch<Message>,
    pub reports: Batch<Report>,
}
