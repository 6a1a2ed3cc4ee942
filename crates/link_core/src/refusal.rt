/// Why a call on links is refused. A refused call changes nothing.
#[derive(Clone, Copy, Debug, PartialEq, Eq)]
pub enum LinkRefusal {
    /// No slot is free.
    Full,
    /// A slot with the node is in Hello, Offered, Bound, Parting or Accused.
    AlreadyLinked,
    /// No slot with the node is Offered or Bound.
    NotLinked,
    /// A flight to the node stands.
    Busy,
    /// No number of a session is left: the next would be above 4,294,967,295.
    Counters,
}
