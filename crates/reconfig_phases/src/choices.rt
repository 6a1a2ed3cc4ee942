ghost use Rattle.std.specs.Prelude.{◌≡◌, filter};
ghost use Rattle.unit_rules.specs.Choices.{ahead_of, furthest, highest_done, higher_if, is_ahead_of, is_among};
ghost use Rattle.unit_rules.specs.Epochs.{is_behind};
ghost use Rattle.unit_rules.specs.Polls.{answers_in};

use ring_points::{Config, Epoch};
use unit_rules::Standing;

/// The same again.
pub fn copy_of(config: &Option<Config>) -> Option<Config>
    ensures { result ≡ config.now }
{
    config.as_ref().map(|config| config.copy())
}

/// Of this configuration and the one that is highest behind it, the one of higher epoch; of two equal ones this.
fn higher_if(config: &Option<Config>, rest: Option<Config>) -> Option<Config>
    ensures { result ≡ higher_if config.now rest }
{
    match (config, rest) {
        (None, rest) => rest,
        (Some(config), Some(other)) if config.epoch < other.epoch => Some(other),
        (Some(config), _) => Some(config.copy()),
    }
}

/// Of the configurations that were carried, the one of highest epoch; of two equal ones the first.
pub fn highest_done(entries: &[(u16, Option<Option<Config>>)]) -> Option<Config>
    ensures { result ≡ highest_done (answers_in entries.now) }
{
    let mut highest = None;
    for i in (0..entries.len()).rev() {
        if let Some(config) = &entries[i].1 {
            highest = higher_if(config, highest);
        }
    }
    highest
}

/// Whether a log comes before another: by its epoch, then by its last entry.
fn is_behind(a: Standing, b: Standing) -> bool
    ensures { result ≡ is_behind a.at a.last b.at b.last }
{
    a.at < b.at || (a.at == b.at && a.last < b.last)
}

/// Whether a replica has the greater log, or an equal one and the lower number.
fn is_ahead_of(a: (u16, Standing), b: (u16, Standing)) -> bool
    ensures { result ≡ is_ahead_of a b }
{
    is_behind(b.1, a.1) || (!is_behind(a.1, b.1) && a.0 < b.0)
}

/// The replica that is ahead of the other, where there is another.
fn ahead_of(a: (u16, Standing), b: Option<(u16, Standing)>) -> Option<(u16, Standing)>
    ensures { result ≡ ahead_of a b }
{
    match b {
        Some(b) if !is_ahead_of(a, b) => Some(b),
        _ => Some(a),
    }
}

/// Of the replicas that answered, the one with the greatest log.
pub fn furthest(entries: &[(u16, Option<Standing>)]) -> Option<(u16, Standing)>
    ensures { result ≡ furthest (answers_in entries.now) }
{
    let mut best = None;
    for i in (0..entries.len()).rev() {
        if let Some(standing) = entries[i].1 {
            best = ahead_of((entries[i].0, standing), best);
        }
    }
    best
}

/// Of these nodes that answered, the one with the greatest log.
pub fn furthest_among(entries: &[(u16, Option<Standing>)], nodes: &[u16]) -> Option<(u16, Standing)>
    ensures { result ≡ furthest (filter (λ a. is_among a.0 nodes.now) (answers_in entries.now)) }
{
    let mut best = None;
    for i in (0..entries.len()).rev() {
        if let Some(standing) = entries[i].1 {
            if nodes.contains(&entries[i].0) {
                best = ahead_of((entries[i].0, standing), best);
            }
        }
    }
    best
}
