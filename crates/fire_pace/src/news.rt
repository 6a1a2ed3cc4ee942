ghost use Rattle.std.specs.Prelude.{◌≡◌};
ghost use Rattle.fire_pace.specs.News;

use fabric_terms::{Body, Report};
use ring_rules::Input;

/// Whether the frame is news: it is no RenewAck, and no Renew without a wish for ranges.
fn is_news_body(body: &Body) -> bool
    ensures { result ≡ News.is_news_body body.now }
{
    match body {
        Body::Renew { want, .. } => *want,
        Body::RenewAck { .. } => false,
        _ => true,
    }
}

/// Whether what came is news.
fn is_news_input(input: &Input) -> bool
    ensures { result ≡ News.is_news_input input.now }
{
    match input {
        Input::Fire => false,
        Input::Frame(message) => is_news_body(&message.body),
        Input::Do(_) => true,
    }
}

/// Whether the report says what the node owns.
fn is_own(report: &Report) -> bool
    ensures { result ≡ News.is_own report.now }
{
    matches!(report, Report::Own(..))
}

/// Whether there is another report than `own`.
fn reports_more(told: &[Report]) -> bool
    ensures { result ≡ News.reports_more told.now }
{
    told.iter().any(|report| !is_own(report))
}

/// Whether the step is news.
pub fn is_news(input: &Input, told: &[Report]) -> bool
    ensures { result ≡ News.is_news input.now told.now }
{
    is_news_input(input) || reports_more(told)
}

/// Whether the step is a firing.
pub fn is_firing(input: &Input) -> bool
    ensures { result ≡ News.is_firing input.now }
{
    match input {
        Input::Fire => true,
        Input::Frame(_) | Input::Do(_) => false,
    }
}
