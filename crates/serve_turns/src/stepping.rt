// A step of the actor that comes by no line: it is carried out, and then told.
ghost use Rattle.std.specs.Prelude.{◌≡◌, ◌∷◌, List, None, length};
ghost use Rattle.fabric_turns.specs.Steps.{left_at};
ghost use Rattle.node_core.specs.Nodes.{FitsInput};
ghost use Rattle.serve_rules.specs.Events.{Event};
ghost use Rattle.serve_turns.specs.Live.{Beginning, around};
ghost use Rattle.serve_turns.specs.Moves.{IsStepBy, Meets, Reaches};
ghost use Rattle.serve_turns.specs.Steps.{CanGoOn, ending_of};
ghost use Rattle.turn_rules.specs.Happenings.{Happening};
ghost use Rattle.turn_rules.specs.Order.{TurnPosition};

use crate::actor_step::act;
use crate::audience::Audience;
use crate::handover::Handover;
use crate::live::Live;
use crate::policy::Policy;
use crate::service::Service;
use crate::telling::tell;
use door_io::Clients;
use ring_node::Input;
use turn_rules::StopCause;

/// Ends the life where its actor has left.
pub(crate) fn go_on(live: &Live) -> Result<(), StopCause>
    requires { length live.now.run.members ≡ 1 }
    ensures { result ≡ ending_of (left_at live.now.run.members 0) }
{
    match live.run.left_at(0) {
        None => Ok(()),
        Some(why) => Err(StopCause::Left(why)),
    }
}

/// The step of the actor by an input, carried out and told.
pub(crate) fn act_told<O: Handover, C: Clients, P: Policy>(
    outside: &mut O,
    audience: &mut Audience<C, P>,
    service: &Service,
    live: &mut Live,
    turn: u64,
    input: &Input,
) -> Result<(), StopCause>
    requires can { CanGoOn service.now.plan live.old (O.told outside.old) }
    requires input { FitsInput input.now }
    ensures done { (o : Beginning) (es : List Event) (e : Event) (x : Happening) (p : TurnPosition) →
        e.turn ≡ turn →
        Meets service.now.plan o
        (around (O.told outside.old) (C.told audience.old.clients) (P.advised audience.old.policy)) live.old es e x p →
        IsStepBy service.now.plan o es e x input.now →
        Reaches service.now.plan o
        (around (O.told outside.new) (C.told audience.new.clients) (P.advised audience.new.policy)) live.new (e ∷ es) p
        result }
    ensures can { CanGoOn service.now.plan live.new (O.told outside.new) }
{
    let deed = act(outside, service, &mut live.run, turn, input)?;
    tell(audience, live, &deed, input, None);
    go_on(live)
}
