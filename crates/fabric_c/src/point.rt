ghost use Rattle.fabric_c.specs.Words.{Points};

use crate::code::{NOT_READ, OK, OUT_OF_MEMORY};
use crate::reply::Reply;
use name_service::point_of;
use report_lines::last_name;
use std::alloc::Global;
use text_fields::push_point;

/// The point of a name, in 16 digits.
pub fn point_reply(alloc: Global, bytes: &[u8]) -> Reply
    ensures { Points bytes.now result.text.items result.code }
{
    let name = match last_name(bytes) {
        Ok(name) => name,
        Err(_) => return Reply::bare(alloc, NOT_READ),
    };
    let mut text = Vec::new(alloc);
    match push_point(&mut text, point_of(name.as_slice()).0) {
        Ok(()) => Reply { text, code: OK },
        Err(_) => Reply::bare(alloc, OUT_OF_MEMORY),
    }
}
