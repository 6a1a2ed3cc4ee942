ghost use Rattle.std.specs.Prelude.{◌≡◌, ◌++◌, OnOk};
ghost use Rattle.status_page.specs.Metrics.{commands_family, firings_family, lines_family, refusals_family};
ghost use Rattle.status_page.specs.Metrics.{slow_family, turn_metrics, turns_family};

use crate::counters::Counters;
use crate::family::{Family, Kind, push_by_word, push_single};
use crate::sample::Measure;
use crate::words::{asker_words, fault_words};
use fabric_terms::OutOfMemory;

#[tactic(auto, unfolding(crate::specs::Metrics::commands_family))]
fn push_commands(into: &mut Vec<u8>, counters: &Counters) -> Result<(), OutOfMemory>
    ensures { OnOk result (into.new.items ≡ into.old.items ++ commands_family counters.now) }
{
    push_by_word(
        into,
        Family {
            kind: Kind::Counter,
            name: b"commands_total",
            help: b"Commands, by who asked.",
        },
        b"from",
        &asker_words(),
        &counters.commands,
    )
}

#[tactic(auto, unfolding(crate::specs::Metrics::refusals_family))]
fn push_refusals(into: &mut Vec<u8>, counters: &Counters) -> Result<(), OutOfMemory>
    ensures { OnOk result (into.new.items ≡ into.old.items ++ refusals_family counters.now) }
{
    push_by_word(
        into,
        Family {
            kind: Kind::Counter,
            name: b"refusals_total",
            help: b"Commands refused, by who asked.",
        },
        b"from",
        &asker_words(),
        &counters.refusals,
    )
}

#[tactic(auto, unfolding(crate::specs::Metrics::lines_family))]
fn push_lines(into: &mut Vec<u8>, counters: &Counters) -> Result<(), OutOfMemory>
    ensures { OnOk result (into.new.items ≡ into.old.items ++ lines_family counters.now) }
{
    push_by_word(
        into,
        Family {
            kind: Kind::Counter,
            name: b"lines_refused_total",
            help: b"Lines of clients refused.",
        },
        b"why",
        &fault_words(),
        &counters.lines,
    )
}

#[tactic(auto, unfolding(crate::specs::Metrics::turns_family))]
fn push_turns(into: &mut Vec<u8>, counters: &Counters) -> Result<(), OutOfMemory>
    ensures { OnOk result (into.new.items ≡ into.old.items ++ turns_family counters.now) }
{
    push_single(
        into,
        Family {
            kind: Kind::Counter,
            name: b"turns_total",
            help: b"Turns taken.",
        },
        Measure::Count,
        counters.turns,
    )
}

#[tactic(auto, unfolding(crate::specs::Metrics::firings_family))]
fn push_firings(into: &mut Vec<u8>, counters: &Counters) -> Result<(), OutOfMemory>
    ensures { OnOk result (into.new.items ≡ into.old.items ++ firings_family counters.now) }
{
    push_single(
        into,
        Family {
            kind: Kind::Counter,
            name: b"firings_total",
            help: b"Firings of the node.",
        },
        Measure::Count,
        counters.firings,
    )
}

#[tactic(auto, unfolding(crate::specs::Metrics::slow_family))]
fn push_slow(into: &mut Vec<u8>, counters: &Counters) -> Result<(), OutOfMemory>
    ensures { OnOk result (into.new.items ≡ into.old.items ++ slow_family counters.now) }
{
    push_single(
        into,
        Family {
            kind: Kind::Counter,
            name: b"slow_turns_total",
            help: b"Turns that took more than the grain.",
        },
        Measure::Count,
        counters.slow_turns,
    )
}

/// Appends the numbers of commands and turns.
#[tactic(auto, unfolding(crate::specs::Metrics::turn_metrics))]
pub fn push_turn_metrics(into: &mut Vec<u8>, counters: &Counters) -> Result<(), OutOfMemory>
    ensures { OnOk result (into.new.items ≡ into.old.items ++ turn_metrics counters.now) }
{
    push_commands(into, counters)?;
    push_refusals(into, counters)?;
    push_lines(into, counters)?;
    push_turns(into, counters)?;
    push_firings(into, counters)?;
    push_slow(into, counters)
}
