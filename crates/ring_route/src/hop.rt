use ring_points::Who;

/// Where the search for a point goes on.
#[derive(Clone, Copy, Debug, PartialEq, Eq)]
pub enum Hop {
    /// The node holds the point itself.
    Here,
    /// To this instance, which is strictly nearer to the point.
    To(Who),
    /// No known node is nearer.
    Nowhere,
}
