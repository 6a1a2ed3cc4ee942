use edge_io::{Devices, Keeper};
use fabric_edge::MonoClock;
use fabric_turns::recall;
use keep_log::Kept;
use serve_edge::{PollBoard, ServedLinks};
use serve_lives::NoSink;
use turn_rules::StopCause;

/// What a keeper keeps of an actor, or why it is not read. Of all devices it alone is asked.
pub fn recall_by<K: Keeper>(
    rt: &HostRuntime,
    board: &PollBoard,
    keeps: &mut K,
    actor: u16,
) -> Result<Kept, StopCause> {
    let alloc = rt.alloc();
    let mut sink = NoSink {};
    let mut clock = MonoClock::new(rt);
    let mut links = ServedLinks::new(rt, alloc, board, None);
    let mut devices = Devices {
        sink: &mut sink,
        links: &mut links,
        keeps,
        clock: &mut clock,
    };
    recall(&mut devices, alloc, actor)
}
