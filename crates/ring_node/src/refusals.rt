ghost use Rattle.std.specs.Prelude.{◌≡◌, ◌<◌, ◌++◌, ◌∷◌, [], is_err, is_some, length, not};
ghost use Rattle.fabric_terms.specs.declared.report.Report.{Report};
ghost use Rattle.ring_node.specs.Refusals.{needs_number, reason_for, reason_of, refusals};

use crate::reports::Reports;
use crate::tokens::Spent;
use fabric_terms::{Reason, Report, Verb};
use link_core::LinkRefusal;
use ring_points::MAX_RING_REPORTS;
use token_core::TokenRefusal;

/// What is told of a refused call on the links; for want of a number nothing is.
fn reason_for(refusal: LinkRefusal) -> Option<Reason>
    ensures { result ≡ reason_for refusal }
{
    match refusal {
        LinkRefusal::AlreadyLinked => Some(Reason::Linked),
        LinkRefusal::Full => Some(Reason::Full),
        LinkRefusal::NotLinked => Some(Reason::NotLinked),
        LinkRefusal::Busy => Some(Reason::Busy),
        LinkRefusal::Counters => None,
    }
}

/// A command is refused.
pub(crate) fn refuse(verb: Verb, reason: Reason, told: &mut Reports)
    requires { length told.old < MAX_RING_REPORTS }
    ensures { told.new ≡ told.old ++ Report.Refused verb reason ∷ [] }
{
    told.push(Report::Refused(verb, reason));
}

/// A command is refused as the call on the links was, but for want of a number.
pub(crate) fn refuse_for(verb: Verb, refusal: LinkRefusal, told: &mut Reports) -> Result<(), Spent>
    requires { length told.old < MAX_RING_REPORTS }
    ensures told { told.new ≡ told.old ++ refusals verb (reason_for refusal) }
    ensures spent { is_err result ≡ needs_number refusal }
{
    match reason_for(refusal) {
        Some(reason) => {
            refuse(verb, reason, told);
            Ok(())
        }
        None => Err(Spent),
    }
}

/// A call on the links was refused, which nobody is told, but for want of a number.
pub(crate) fn pass_over(refusal: LinkRefusal) -> Result<(), Spent>
    ensures { is_err result ≡ needs_number refusal }
{
    match reason_for(refusal) {
        Some(_) => Ok(()),
        None => Err(Spent),
    }
}

/// Why a gift is not frozen; for want of a number nothing is told.
fn reason_of(refusal: TokenRefusal) -> Option<Reason>
    ensures { result ≡ reason_of refusal }
{
    match refusal {
        TokenRefusal::Empty => Some(Reason::Empty),
        TokenRefusal::TooMany => Some(Reason::TooMany),
        TokenRefusal::NotReady => Some(Reason::NotRouting),
        TokenRefusal::Busy | TokenRefusal::NoFreeze => Some(Reason::Busy),
        TokenRefusal::Counters => None,
    }
}

/// The command to give is refused as the token refused the freeze, but for want of a number.
pub(crate) fn refuse_gift(refusal: TokenRefusal, told: &mut Reports) -> Result<(), Spent>
    requires { length told.old < MAX_RING_REPORTS }
    ensures told { told.new ≡ told.old ++ refusals Verb.Give (reason_of refusal) }
    ensures spent { is_err result ≡ not (is_some (reason_of refusal)) }
{
    match reason_of(refusal) {
        Some(reason) => {
            refuse(Verb::Give, reason, told);
            Ok(())
        }
        None => Err(Spent),
    }
}
