use fabric_terms::{Head, Message, Record, Report};

/// What a step of an actor leaves to do: the records to keep, the frames to send and the reports to write, under the
/// head of the actor's lines.
#[derive(Clone, Copy)]
pub struct StepEffects<'a> {
    pub head: &'a Head,
    pub records: &'a [Record],
    pub frames: &'a [Message],
    pub reports: &'a [Report],
}
