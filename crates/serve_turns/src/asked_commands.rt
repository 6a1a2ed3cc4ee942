// The commands of clients. Each is refused, or it is one step of the node, carried out, told and answered.
ghost use Rattle.std.specs.Prelude.{◌≡◌, ◌<◌, [], length, true};
ghost use Rattle.fabric_terms.specs.Ranges.{FitsCommand};
ghost use Rattle.fabric_turns.specs.Moves.{at_place};
ghost use Rattle.open_answers.specs.Answers.{most_open_answers};
ghost use Rattle.serve_rules.specs.Events.{sought_by};
ghost use Rattle.serve_rules.specs.Lines.{Commands, command_line};
ghost use Rattle.serve_rules.specs.Services.{actor_of};
ghost use Rattle.serve_turns.specs.Live.{around};
ghost use Rattle.serve_turns.specs.Moves.{TakesAs};
ghost use Rattle.serve_turns.specs.Steps.{CanGoOn};
ghost use Rattle.turn_rules.specs.Order.{Busy};
ghost use Rattle.turn_rules.specs.Plans.{is_node_at};
ghost use Rattle.world_rules.specs.Schedules.{command_names};

use crate::actor_step::act;
use crate::audience::Audience;
use crate::handover::Handover;
use crate::lines::refuse_line;
use crate::live::Live;
use crate::policy::Policy;
use crate::service::Service;
use crate::stepping::go_on;
use crate::telling::{answer, tell};
use door_io::Clients;
use door_lines::Fault;
use fabric_terms::Command;
use open_answers::Asker;
use ring_node::Input;
use ring_points::Point;
use turn_rules::StopCause;

/// A command that a client asks for.
#[derive(Drop)]
pub(crate) struct AskedCommand {
    pub(crate) asker: Asker,
    pub(crate) command: Command,
}

/// The point that a command asks about.
fn sought_by(command: &Command) -> Option<Point>
    ensures { result ≡ sought_by command.now }
{
    match command {
        Command::Find(key) => Some(*key),
        _ => None,
    }
}

/// The step of the node by a command of a client, carried out, told and answered.
fn do_command<O: Handover, C: Clients, P: Policy>(
    outside: &mut O,
    audience: &mut Audience<C, P>,
    service: &Service,
    live: &mut Live,
    turn: u64,
    asked: AskedCommand,
) -> Result<(), StopCause>
    requires can { CanGoOn service.now.plan live.old (O.told outside.old) }
    requires node { is_node_at service.now.plan 0 ≡ true }
    requires command { FitsCommand asked.command }
    requires named { command_names service.now.plan.config (actor_of service.now.plan) asked.command ≡ true }
    requires room { length live.old.sessions.answers.waiting < most_open_answers }
    ensures done { TakesAs service.now.plan asked.asker.client (Commands asked.asker.tag asked.command)
        (around (O.told outside.old) (C.told audience.old.clients) (P.advised audience.old.policy)) live.old
        (at_place turn 0 (Busy [] 0))
        (around (O.told outside.new) (C.told audience.new.clients) (P.advised audience.new.policy)) live.new
        (at_place turn 0 (Busy [] 0)) result }
    ensures can { CanGoOn service.now.plan live.new (O.told outside.new) }
{
    let asker = asked.asker;
    let input = Input::Do(asked.command);
    let deed = act(outside, service, &mut live.run, turn, &input)?;
    let Input::Do(command) = &input else {
        return go_on(live);
    };
    tell(audience, live, &deed, &input, sought_by(command));
    answer(audience, live, &deed, asker, command);
    go_on(live)
}

/// A command of a client: it is done if it names nodes that are there, and its answer finds room.
pub(crate) fn take_command<O: Handover, C: Clients, P: Policy>(
    outside: &mut O,
    audience: &mut Audience<C, P>,
    service: &Service,
    live: &mut Live,
    turn: u64,
    asked: AskedCommand,
) -> Result<(), StopCause>
    requires can { CanGoOn service.now.plan live.old (O.told outside.old) }
    requires node { is_node_at service.now.plan 0 ≡ true }
    requires command { FitsCommand asked.command }
    ensures done { TakesAs service.now.plan asked.asker.client
        (command_line service.now.plan live.old.sessions asked.asker.tag asked.command)
        (around (O.told outside.old) (C.told audience.old.clients) (P.advised audience.old.policy)) live.old
        (at_place turn 0 (Busy [] 0))
        (around (O.told outside.new) (C.told audience.new.clients) (P.advised audience.new.policy)) live.new
        (at_place turn 0 (Busy [] 0)) result }
    ensures can { CanGoOn service.now.plan live.new (O.told outside.new) }
{
    let Asker { client, tag } = asked.asker;
    if !service.names(&asked.command) {
        refuse_line(audience, live, client, Some(tag), Fault::NoSuch);
        Ok(())
    } else if !live.sessions.has_room() {
        refuse_line(audience, live, client, Some(tag), Fault::Busy);
        Ok(())
    } else {
        do_command(outside, audience, service, live, turn, asked)
    }
}
