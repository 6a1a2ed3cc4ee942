ghost use Rattle.std.specs.Prelude.{◌≡◌, ℕ, List, None, Some, map, string_bytes};
ghost use Rattle.fabric_top.specs.Forms.{form_of};
ghost use Rattle.fabric_top.specs.Safe.{IsSafe};
ghost use Rattle.fabric_top.specs.Top.{Does};
ghost use Rattle.edge_io.specs.Told.{Loans};
ghost use Rattle.schedule_rules.specs.Schedule.{judge};
ghost use Rattle.turn_rules.specs.Whole.{told_of};

use crate::forms::run_form;
use crate::usage::usage;
use crate::words::read_form;
use edge_io::{Clock, Devices, Keeper, Links, Sink, Source};
use fabric_status::Status;
use std::alloc::Global;

/// All that the program does: the words say what.
///
/// `replay` reads a schedule from the source, to its end, and writes its report to the sink; `trace` writes its
/// transcript, and `writes` the committed logs of its run. `audit` reads a transcript and writes the verdict on the run
/// that it is. `generate` writes the schedule that its words make, `drill` the numbers of its run; neither reads.
/// `node`, `arbiter` and `cluster` read a configuration and commands from the source, to its end, and then run the
/// actors that the words name, over the links, the keeper and the clock. Words that are none of the forms are Usage,
/// and nothing is read. Where memory is out while words that are a form are split, the status is OutOfMemory, and no
/// device is used.
pub fn fabric_main<S: Source, K: Sink, N: Links, D: Keeper, C: Clock>(
    alloc: Global,
    words: &[String],
    source: &mut S,
    sink: &mut K,
    links: &mut N,
    keeps: &mut D,
    clock: &mut C,
) -> Status
    // What each command does to the devices, at every status, and what is done where the words are none.
    // The steps of `cluster` are safe.
    ensures does { (l : Loans) × Does (form_of (map string_bytes words.now))
        (record {
          left = S.left source.old;
          source_faults = S.faults source.old;
          told = told_of l (K.held sink.old) (K.faults sink.old) (D.kept keeps.old) (D.faults keeps.old) (N.opened links.old) (N.arrivals links.old) (N.sent links.old) (N.faults links.old) (C.readings clock.old) (C.last clock.old) (C.falls clock.old);
        })
        result
        (record {
          left = S.left source.new;
          source_faults = S.faults source.new;
          told = told_of l (K.held sink.new) (K.faults sink.new) (D.kept keeps.new) (D.faults keeps.new) (N.opened links.new) (N.arrivals links.new) (N.sent links.new) (N.faults links.new) (C.readings clock.new) (C.last clock.new) (C.falls clock.new);
        }) }

    // Usage comes where the words are none of the forms, and nowhere else.
    ensures usage { result ≡ Status.Usage → form_of (map string_bytes words.now) ≡ None }

    // At every status the run of the events that are accepted of a schedule is safe.
    ensures safe { (bytes : List ℕ) → S.left source.old ≡ Some bytes → IsSafe (judge bytes) }
{
    match read_form(alloc, words) {
        Ok(Some(form)) => {
            let mut devices = Devices {
                sink,
                links,
                keeps,
                clock,
            };
            run_form(alloc, form, source, &mut devices)
        }
        Ok(None) => usage(sink),
        Err(_) => Status::OutOfMemory,
    }
}
