ghost use Rattle.std.specs.Prelude.{◌≡◌, [], vec_capacity, vec_len};

use std::alloc::Global;
use std::mem;

/// Gives away what lies in the room, and leaves nothing there. The room itself stays for the next time, unless memory
/// for what is given away is short: then it goes with it. A room has place for the most that a step leaves, many times
/// what most steps leave. Where nothing lies in it, it is not touched, and no memory is taken.
pub(crate) fn give_away<T>(alloc: Global, room: &mut Vec<T>) -> Vec<T>
    ensures given { result.items ≡ room.old.items }
    ensures left { room.new.items ≡ [] }
    ensures empty { vec_len room.new ≡ 0 }
    ensures stays { room.old.items ≡ [] → vec_capacity room.new ≡ vec_capacity room.old }
{
    if room.is_empty() {
        return Vec::new(alloc);
    }
    match room.split_off(0) {
        Ok(given) => given,
        Err(_) => mem::replace(room, Vec::new(alloc)),
    }
}
