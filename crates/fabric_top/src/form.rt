/// What the words ask for.
#[derive(Clone, Copy, Debug, PartialEq, Eq)]
pub enum Form {
    /// `replay`: runs a schedule and reports the run.
    Replay,
    /// `writes`: runs a schedule and writes the committed log of each partition.
    Writes,
    /// `trace`: runs a schedule and writes its transcript: the clocks and the reports of each event.
    Trace,
    /// `audit`: reads a transcript and writes the verdict on its run.
    Audit,
    /// `node N T`: runs a node for so many turns.
    Node { node: u16, turns: u64 },
    /// `arbiter A T`: runs an arbitrator for so many turns.
    Arbiter { arbiter: u8, turns: u64 },
    /// `cluster T`: runs every configured actor for so many turns.
    Cluster { turns: u64 },
    /// `generate S N R`: writes the schedule of a seed, of so many nodes and rounds.
    Generate { seed: u64, nodes: u16, rounds: u32 },
    /// `drill S N R`: runs that schedule and sums it up.
    Drill { seed: u64, nodes: u16, rounds: u32 },
}
