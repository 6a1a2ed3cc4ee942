ghost use Rattle.std.specs.Prelude.{◌≡◌, ◌<◌, ◌≤◌, ◌==◌, ℕ, IsTrue, IfSome, OnSome, true, false, filter, length};
ghost use Rattle.std.specs.Prelude.{position};
ghost use Rattle.ring_route.specs.Entries.{is_known};
ghost use Rattle.ring_route.specs.Routes.{heard_in, is_among, is_skipped, may_hop};

use arrayvec::ArrayVec;
use ring_points::{MAX_NODES, Who};

/// A known node: its latest instance, its point, and the reading at which it was last heard.
#[derive(Clone, Copy, Default)]
pub(crate) struct Known {
    pub who: Who,
    pub point: u64,
    pub heard: u64,
}

/// Where the entry of this node stands.
fn place_of(known: &[Known], node: u16) -> Option<usize>
    ensures place { result ≡ position (λ k. k.who.actor == node) known.now }
    ensures some { OnSome result (is_known node known.now ≡ true) }
    ensures inside { IfSome result (λ place. place < length known.now) }
{
    known.iter().position(|k| k.who.actor == node)
}

/// Notes that a known node was heard again, and says whether it is known. A lower instance changes
/// nothing.
pub(crate) fn hear_again(known: &mut [Known], who: Who, now: u64) -> bool
    ensures found { result ≡ is_known who.actor known.old }
    ensures heard { IsTrue result → (point : ℕ) → known.new ≡ heard_in who point now known.old }
    ensures kept { result ≡ false → known.new ≡ known.old }
{
    match place_of(known, who.actor) {
        Some(place) => {
            if known[place].who.instance <= who.instance {
                let point = known[place].point;
                known[place] = Known {
                    who,
                    point,
                    heard: now,
                };
            }
            true
        }
        None => false,
    }
}

/// Whether this instance is one of these.
pub fn is_among(who: Who, whos: &[Who]) -> bool
    ensures { result ≡ is_among who whos.now }
{
    whos.iter().any(|other| who.actor == other.actor && who.instance == other.instance)
}

fn is_skipped(skip: Option<u16>, node: u16) -> bool
    ensures { result ≡ is_skipped skip node }
{
    match skip {
        Some(skipped) => skipped == node,
        None => false,
    }
}

fn may_hop(skip: Option<u16>, accused: &[Who], k: &Known) -> bool
    ensures { result ≡ may_hop skip accused.now k.now }
{
    !is_skipped(skip, k.who.actor) && !is_among(k.who, accused)
}

/// Those that are neither skipped nor accused.
pub(crate) fn hops(
    known: &[Known],
    skip: Option<u16>,
    accused: &[Who],
) -> ArrayVec<Known, MAX_NODES>
    requires { length known.now ≤ MAX_NODES }
    ensures { result.items ≡ filter (may_hop skip accused.now) known.now }
{
    let mut hops = ArrayVec::new();
    for k in known {
        if may_hop(skip, accused, k) {
            hops.push(*k);
        }
    }
    hops
}
