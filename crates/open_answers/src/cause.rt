use fabric_terms::Report;

/// What ends answers.
#[derive(Drop)]
pub enum Cause<'a> {
    /// The reports of a step, and the partition of which it takes a Prepared.
    Step {
        prepared: Option<u16>,
        told: &'a [Report],
    },
    /// The reading of a clock.
    Time(u64),
    /// The end of the instance.
    End,
}
