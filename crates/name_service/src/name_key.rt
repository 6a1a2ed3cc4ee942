ghost use Rattle.std.specs.Prelude.{◌≡◌, [], IfNone, IfSome, false, true};
ghost use Rattle.name_rules.specs.Grammar.{is_name};
ghost use Rattle.name_service.specs.Stores.{IsPlaceOf};

use crate::name::is_name;
use crate::point::point_of;
use arrayvec::ArrayVec;
use ring_points::MAX_NAME;

/// The place of a name: its point, in points of the ring, and there its bytes. The point is kept so that a comparison
/// does not compute it, and the bytes are in the value itself, so that a look-up takes no memory.
#[derive(PartialEq, Eq, PartialOrd, Ord, Drop)]
pub(crate) struct NameKey {
    point: u64,
    name: ArrayVec<u8, MAX_NAME>,
}

impl NameKey {
    /// The place of a name.
    pub(crate) fn of(name: &[u8]) -> NameKey
        requires { is_name name.now ≡ true }
        ensures { IsPlaceOf name.now result }
    {
        let mut bytes = ArrayVec::new();
        for byte in name {
            bytes.push(*byte);
        }
        NameKey {
            point: point_of(name).0,
            name: bytes,
        }
    }

    /// The place of these bytes; None exactly where they are no name.
    pub(crate) fn read(bytes: &[u8]) -> Option<NameKey>
        ensures some { IfSome result (λ place. IsPlaceOf bytes.now place × (is_name bytes.now ≡ true)) }
        ensures none { IfNone result (is_name bytes.now ≡ false) }
    {
        if is_name(bytes) {
            Some(NameKey::of(bytes))
        } else {
            None
        }
    }

    /// The first place at a point, in front of every name there.
    pub(crate) fn first_at(point: u64) -> NameKey
        ensures point { result.point ≡ point }
        ensures name { result.name.items ≡ [] }
    {
        NameKey {
            point,
            name: ArrayVec::new(),
        }
    }

    pub(crate) fn point(&self) -> u64
        ensures { result ≡ self.now.point }
    {
        self.point
    }

    pub(crate) fn name(&self) -> &[u8]
        ensures { result.now ≡ self.now.name.items }
    {
        self.name.as_slice()
    }
}
