/// What passes the time of a process that has nothing to do.
pub trait Rest {
    /// Returns when something may have come, or after so many ticks. It changes nothing but the time.
    fn rest(&mut self, most: u64);
}
