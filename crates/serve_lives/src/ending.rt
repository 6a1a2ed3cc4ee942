// How a served process ends by its last life.
ghost use Rattle.std.specs.Prelude.{◌≡◌, ◌&&◌, not};
ghost use Rattle.serve_lives.specs.Endings.{end_of, has_left};

use serve_turns::LifeEnd;
use turn_rules::StopCause;

/// How a served process ends.
#[derive(Clone, Copy, Debug, PartialEq, Eq)]
pub enum ServeEnd {
    /// A client told it to end, or to leave; also where its instance left the ring then.
    Told,
    /// All turns are taken that can be counted, or all lives.
    Spent,
    /// Its last life has stopped. An instance that left is not followed by a next one where all numbers are used up.
    Stopped(StopCause),
    /// What is kept of its actor could not be read, so that its next life did not begin: the keeper failed, a record is
    /// bad, or memory was short.
    NotBegun(StopCause),
}

/// Whether a life ended as its instance left.
fn has_left(end: LifeEnd) -> bool
    ensures { result ≡ has_left end }
{
    matches!(end, LifeEnd::Stopped(StopCause::Left(_)))
}

/// Whether a next life follows, where the process was told to leave or not, and all numbers of instances were used up
/// or not when this one began.
pub(crate) fn follows(end: LifeEnd, leaving: bool, spent: bool) -> bool
    ensures { result ≡ (has_left end && not leaving && not spent) }
{
    has_left(end) && !leaving && !spent
}

/// How the process ends by its last life, where it was told to leave or not.
pub(crate) fn end_of(end: LifeEnd, leaving: bool) -> ServeEnd
    ensures { result ≡ end_of end leaving }
{
    match end {
        LifeEnd::Told => ServeEnd::Told,
        LifeEnd::Spent => ServeEnd::Spent,
        LifeEnd::Stopped(StopCause::Left(_)) if leaving => ServeEnd::Told,
        LifeEnd::Stopped(cause) => ServeEnd::Stopped(cause),
    }
}
