ghost use Rattle.std.specs.Prelude.{◌≡◌};
ghost use Rattle.name_rules.specs.Names.{mixed, point_of};

use ring_points::Point;

/// What is mixed into before the first byte: the offset basis of the 64-bit FNV-1a hash.
const BASIS: u64 = 14_695_981_039_346_656_037;

/// By what each mixed byte is multiplied: the prime of that hash.
const PRIME: u64 = 1_099_511_628_211;

fn mixed(h: u64, byte: u8) -> u64
    ensures { result ≡ mixed h byte }
{
    (h ^ u64::from(byte)).wrapping_mul(PRIME)
}

/// Where a name is on the ring: the 64-bit FNV-1a hash of its bytes.
#[tactic(auto, unfolding(name_rules::specs::Names::point_of))]
pub fn point_of(name: &[u8]) -> Point
    ensures { result.0 ≡ point_of name.now }
{
    let mut h = BASIS;
    for byte in name {
        h = mixed(h, *byte);
    }
    Point(h)
}
