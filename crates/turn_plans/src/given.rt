use crate::crew::Crew;
use edge_io::Endpoint;
use fabric_terms::FabricConfig;

/// What the lines of a plan are judged for: whose turns, in which configuration, the actors that run, in the order of
/// their turns, and how many turns there are.
#[derive(Drop)]
pub(crate) struct Given<'a> {
    pub(crate) crew: Crew,
    pub(crate) config: &'a FabricConfig,
    pub(crate) actors: &'a [Endpoint],
    pub(crate) turns: u64,
}
