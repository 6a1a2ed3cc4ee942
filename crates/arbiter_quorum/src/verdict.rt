use ring_points::Config;

/// What the rulings on an accusation amount to so far.
#[derive(Clone, Copy, Debug, PartialEq, Eq)]
pub enum Verdict {
    /// Nothing is settled.
    Open,
    /// A majority has not refused: the accuser is free of the victim.
    Discharged,
    /// A majority has granted: the accuser is the victim's one heir.
    Heir,
    /// No majority is left that has not refused: the accuser must leave.
    Lost,
}

/// What the configurations that arbitrators kept of one epoch amount to so far.
#[derive(Drop)]
pub enum VoteVerdict {
    /// Some configuration can still get a majority.
    Open,
    /// A majority kept this configuration.
    Decided(Config),
    /// No configuration can get a majority any more.
    Split,
}
