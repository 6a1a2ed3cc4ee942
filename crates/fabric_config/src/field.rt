ghost use Rattle.std.specs.Prelude.{◌≡◌, Some};
ghost use Rattle.fabric_config.specs.Fields.{name_of};

use std::fmt;

/// A field of the configuration line, or of an entry of one of its two lists. Its name in the text is
/// the variant's in small letters.
#[derive(Clone, Copy, Debug, PartialEq, Eq)]
pub enum Field {
    /// The number of the node whose instance 1 begins with the whole ring.
    First,
    /// With how many nodes on each side a routing node asks for links: 0 to 4, 0 where absent.
    Near,
    /// How many rounds of heirs there may be: 1 to 8, 1 where absent.
    Rounds,
    /// The length of a lease: 10 to 1,000,000,000 ticks.
    Lease,
    /// How long an answer of the arbitrators may take: 1 to 1,000,000,000 ticks.
    Answer,
    /// How far a clock may drift: 0 to 100 per mille.
    Drift,
    /// How far a clock may be off beside its drift: 0 to 1,000,000 ticks.
    Grain,
    /// The list of nodes, 1 to 64.
    Nodes,
    /// The list of arbitrators, 1 to 9.
    Arbiters,
    /// A node's number, 1 to 999.
    Node,
    /// A node's point: 16 digits `0-9a-f`.
    Point,
    /// A node's fault domain: 1 to 64, 1 where absent.
    Domain,
    /// Where a node or an arbitrator listens: a text, empty where absent.
    At,
    /// The longest lease that a node agrees to: 10 to 1,000,000,000 ticks, the lease where absent.
    Longest,
    /// An arbitrator's number, which is its place in the list, from 1.
    Arbiter,
}

impl Field {
    /// The name in the text.
    pub fn name(self) -> &'static str
        ensures { result.now ≡ name_of self }
    {
        match self {
            Field::First => "first",
            Field::Near => "near",
            Field::Rounds => "rounds",
            Field::Lease => "lease",
            Field::Answer => "answer",
            Field::Drift => "drift",
            Field::Grain => "grain",
            Field::Nodes => "nodes",
            Field::Arbiters => "arbiters",
            Field::Node => "node",
            Field::Point => "point",
            Field::Domain => "domain",
            Field::At => "at",
            Field::Longest => "longest",
            Field::Arbiter => "arbiter",
        }
    }
}

impl fmt::Display for Field {
    ghost output = { λ field. Some (name_of field) };

    fn fmt<W: fmt::Write>(&self, f: &mut fmt::Formatter<W>) -> fmt::Result {
        f.write_str(self.name())
    }
}
