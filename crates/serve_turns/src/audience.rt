use crate::policy::Policy;
use door_io::Clients;

/// Who hears of the steps of the actor: the clients with the log, and the policy.
#[derive(Drop)]
pub struct Audience<C: Clients, P: Policy> {
    pub clients: C,
    pub policy: P,
}
