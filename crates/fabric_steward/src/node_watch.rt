ghost use Rattle.std.specs.Prelude.{◌≡◌};
ghost use Rattle.fabric_steward.specs.Policies.{node_watched};
ghost use Rattle.fabric_steward.specs.Afterwards.{node_asked, node_greeted};
ghost use Rattle.fabric_steward.specs.Departures.{node_parted, node_unasked};

use fabric_terms::NodeEntry;
use ring_points::Point;

/// A configured node, as the policy looks for it.
#[derive(Clone, Copy)]
pub struct NodeWatch {
    pub node: u16,
    pub point: Point,
    pub domain: u16,
    /// When a search for its point, or an end of the link with it, was commanded last.
    pub asked: Option<u64>,
    /// When a link with it was asked for last.
    pub greeted: Option<u64>,
}

impl NodeWatch {
    /// It was not looked for yet.
    pub fn new(entry: &NodeEntry) -> NodeWatch
        ensures { result ≡ node_watched entry.now }
    {
        NodeWatch {
            node: entry.node,
            point: entry.point,
            domain: entry.domain,
            asked: None,
            greeted: None,
        }
    }

    /// A search for this point is commanded.
    pub fn asked(self, point: Point, now: u64) -> NodeWatch
        ensures { result ≡ node_asked point now self }
    {
        if self.point.0 == point.0 {
            NodeWatch {
                asked: Some(now),
                ..self
            }
        } else {
            self
        }
    }

    /// A link with this node is asked for.
    pub fn greeted(self, node: u16, now: u64) -> NodeWatch
        ensures { result ≡ node_greeted node now self }
    {
        if self.node == node {
            NodeWatch {
                greeted: Some(now),
                ..self
            }
        } else {
            self
        }
    }

    /// It was not asked for anything yet.
    pub fn unasked(self) -> NodeWatch
        ensures { result ≡ node_unasked self }
    {
        NodeWatch {
            asked: None,
            ..self
        }
    }

    /// Parting the link with this node is commanded.
    pub fn parted(self, node: u16, now: u64) -> NodeWatch
        ensures { result ≡ node_parted node now self }
    {
        if self.node == node {
            NodeWatch {
                asked: Some(now),
                ..self
            }
        } else {
            self
        }
    }
}
