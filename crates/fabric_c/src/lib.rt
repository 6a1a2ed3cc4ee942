//! A library for C and other languages: words of the fabric that touch nothing outside.
//!
//! Each word reads the bytes of its caller, and says how it ended. Most put a text in the caller's room, and say how
//! long it is. The crate decides nothing: it stands on the audit of a transcript, on the point of a name, on the lines
//! of schedules and reports, on frames and on records, and replies what they say. A room that is too small stays as it
//! is. No word keeps anything from one call to the next. It promises exactly what is in the room, the length and the
//! code.
#![tactic(auto)]

ghost use Rattle.std.specs.Prelude.{◌≡◌};
ghost use Rattle.fabric_c.specs.Rooms.{Handed};
ghost use Rattle.fabric_c.specs.Words.{Audits, IsReportCode, Points, ReadsFrame, ReadsRecord, WritesFrame};
ghost use Rattle.fabric_c.specs.Words.{WritesRecord, event_code};

mod back;
mod code;
mod digits;
mod frame;
mod frame_name;
mod laws;
mod lent_source;
mod line;
mod point;
mod record;
mod reply;
mod text_sink;
mod verdict;
mod worked;

use back::{frame_back, record_back};
use frame::frame_reply;
pub use laws::{frames_have_own_lines, records_have_own_lines};
use line::{event_code, report_code};
use point::point_reply;
use record::record_reply;
use reply::hand_out;
use std::alloc::Global;
use verdict::audit_reply;
pub use worked::worked_replies;

/// Audits a transcript: the room gets the line that `fabric audit` writes, and the code is the program's status.
#[unsafe(no_mangle)]
pub extern "C" fn fabric_audit(
    alloc: Global,
    transcript: &[u8],
    room: &mut [u8],
    length: &mut usize,
) -> u8
    ensures { Handed (Audits transcript.now) room.old room.new length.new result }
{
    let reply = audit_reply(alloc, transcript);
    hand_out(&reply, room, length)
}

/// The room gets the point of a name, in 16 digits. `NOT_READ` comes where the bytes are no name.
#[unsafe(no_mangle)]
pub extern "C" fn fabric_point(
    alloc: Global,
    name: &[u8],
    room: &mut [u8],
    length: &mut usize,
) -> u8
    ensures { Handed (Points name.now) room.old room.new length.new result }
{
    let reply = point_reply(alloc, name);
    hand_out(&reply, room, length)
}

/// Whether the bytes are a line of a schedule, without its line feed: `OK` or `NOT_READ`.
#[unsafe(no_mangle)]
pub extern "C" fn fabric_event(line: &[u8]) -> u8
    ensures { result ≡ event_code line.now }
{
    event_code(line)
}

/// Whether the bytes are a line of a report, without its line feed: `OK` or `NOT_READ`, or `OUT_OF_MEMORY`.
#[unsafe(no_mangle)]
pub extern "C" fn fabric_report(alloc: Global, line: &[u8]) -> u8
    ensures { IsReportCode line.now result }
{
    report_code(alloc, line)
}

/// The room gets the line of a frame: its bytes in digits, the name of its message, who sends it and to whom, without a
/// line feed. `NOT_READ` comes where the bytes are no frame.
#[unsafe(no_mangle)]
pub extern "C" fn fabric_frame_line(
    alloc: Global,
    frame: &[u8],
    room: &mut [u8],
    length: &mut usize,
) -> u8
    ensures { Handed (WritesFrame frame.now) room.old room.new length.new result }
{
    let reply = frame_reply(alloc, frame);
    hand_out(&reply, room, length)
}

/// The room gets the frame with this line. `NOT_READ` comes where no frame has it.
#[unsafe(no_mangle)]
pub extern "C" fn fabric_frame_bytes(
    alloc: Global,
    line: &[u8],
    room: &mut [u8],
    length: &mut usize,
) -> u8
    ensures { Handed (ReadsFrame line.now) room.old room.new length.new result }
{
    let reply = frame_back(alloc, line);
    hand_out(&reply, room, length)
}

/// The room gets the line of a record: its bytes in digits, and its name, without a line feed. `NOT_READ` comes where
/// the bytes are no record.
#[unsafe(no_mangle)]
pub extern "C" fn fabric_record_line(
    alloc: Global,
    bytes: &[u8],
    room: &mut [u8],
    length: &mut usize,
) -> u8
    ensures { Handed (WritesRecord bytes.now) room.old room.new length.new result }
{
    let reply = record_reply(alloc, bytes);
    hand_out(&reply, room, length)
}

/// The room gets the record with this line. `NOT_READ` comes where no record has it.
#[unsafe(no_mangle)]
pub extern "C" fn fabric_record_bytes(
    alloc: Global,
    line: &[u8],
    room: &mut [u8],
    length: &mut usize,
) -> u8
    ensures { Handed (ReadsRecord line.now) room.old room.new length.new result }
{
    let reply = record_back(alloc, line);
    hand_out(&reply, room, length)
}
