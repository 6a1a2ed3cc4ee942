// What is told of a step that was carried out.
ghost use Rattle.std.specs.Prelude.{◌≡◌, ◌≤◌, ◌∷◌, ◌<◌, [], IfSome, List, None, Option, Some, length};
ghost use Rattle.client_sessions.specs.Answers.{own_answer, with_answer};
ghost use Rattle.client_sessions.specs.Sessions.{after_step, of_step};
ghost use Rattle.client_sessions.specs.Utterances.{Uttered};
ghost use Rattle.ring_points.specs.declared.point.Point.{Point as PointOf};
ghost use Rattle.fire_pace.specs.News.{Step as PacedStep};
ghost use Rattle.fire_pace.specs.Pace.{pace_after};
ghost use Rattle.open_answers.specs.Answers.{most_open_answers};
ghost use Rattle.serve_turns.specs.Telling.{paced_of, told_of};
ghost use Rattle.turn_rules.specs.Steps.{present};

use crate::audience::Audience;
use crate::live::Live;
use crate::policy::Policy;
use client_sessions::StepTold;
use door_io::Clients;
use fabric_terms::Command;
use open_answers::Asker;
use ring_node::Input;
use ring_points::{MAX_READING, Point};
use turn_members::Deed;

/// Tells a step to the clients and to the log, and notes it for the pace of firings and for the policy.
pub(crate) fn tell<C: Clients, P: Policy>(
    audience: &mut Audience<C, P>,
    live: &mut Live,
    deed: &Deed,
    input: &Input,
    sought: Option<Point>,
)
    requires reading { IfSome live.old.run.last (λ reading. reading ≤ MAX_READING) }
    ensures said { Uttered (of_step live.old.sessions (told_of deed.now (Some input.now) sought))
        (C.told audience.old.clients) (C.told audience.new.clients) }
    ensures sessions { live.new.sessions ≡ after_step live.old.sessions (told_of deed.now (Some input.now) sought) }
    ensures pace { (steps : List PacedStep) → live.old.pace ≡ pace_after steps →
        live.new.pace ≡ pace_after (paced_of deed.now input.now (present live.old.run.last) ∷ steps) }
    ensures rest { live.new ≡ record live.old { sessions = live.new.sessions; pace = live.new.pace } }
    ensures advised { P.advised audience.new.policy ≡ P.advised audience.old.policy }
{
    let now = live.run.last().unwrap_or(0);
    let reports = deed.outcome.reports.as_slice();
    let step = StepTold {
        head: &deed.head,
        input: Some(input),
        reports,
        sought,
    };
    live.sessions.tell(&mut audience.clients, &step);
    live.pace.did(input, reports, now);
    audience.policy.note(input, reports, now);
}

/// Tells a start to the clients and to the log. It has no input, so it is no news to the pace of firings.
pub(crate) fn tell_start<C: Clients, P: Policy>(
    audience: &mut Audience<C, P>,
    live: &mut Live,
    deed: &Deed,
)
    ensures said { Uttered (of_step live.old.sessions (told_of deed.now None None)) (C.told audience.old.clients)
        (C.told audience.new.clients) }
    ensures sessions { live.new.sessions ≡ after_step live.old.sessions (told_of deed.now None None) }
    ensures rest { live.new ≡ record live.old { sessions = live.new.sessions } }
    ensures advised { P.advised audience.new.policy ≡ P.advised audience.old.policy }
{
    let step = StepTold {
        head: &deed.head,
        input: None,
        reports: deed.outcome.reports.as_slice(),
        sought: None,
    };
    live.sessions.tell(&mut audience.clients, &step);
}

/// Answers the client whose command made this step, behind what was told of it.
pub(crate) fn answer<C: Clients, P: Policy>(
    audience: &mut Audience<C, P>,
    live: &mut Live,
    deed: &Deed,
    asker: Asker,
    command: &Command,
)
    requires room { length live.old.sessions.answers.waiting < most_open_answers }
    ensures said { (sought : Option PointOf) →
        Uttered (own_answer asker command.now (told_of deed.now (Some (Input.Do command.now)) sought) ∷ [])
        (C.told audience.old.clients) (C.told audience.new.clients) }
    ensures sessions { (sought : Option PointOf) → live.new.sessions ≡ with_answer live.old.sessions asker command.now
        (told_of deed.now (Some (Input.Do command.now)) sought) (present live.old.run.last) }
    ensures rest { live.new ≡ record live.old { sessions = live.new.sessions } }
    ensures advised { P.advised audience.new.policy ≡ P.advised audience.old.policy }
{
    let now = live.run.last().unwrap_or(0);
    let step = StepTold {
        head: &deed.head,
        input: None,
        reports: deed.outcome.reports.as_slice(),
        sought: None,
    };
    live.sessions
        .answer(&mut audience.clients, asker, command, &step, now);
}
