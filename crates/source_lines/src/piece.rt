// A piece of a source, read behind what stands in the room.
ghost use Rattle.std.specs.Prelude.{◌≡◌, ◌+◌, ◌-◌, ◌≤◌, ◌<◌, ◌==◌, ◌++◌, ℕ, List, [], Some, Ok, IfOk, OnErr, length};
ghost use Rattle.std.specs.Prelude.{take, drop, position};
ghost use Rattle.edge_io.specs.Edge.{HasCause};
ghost use Rattle.source_lines.specs.Feeds.{HasNoFeed};
ghost use Rattle.source_lines.specs.Stops.{StopsAt};

use edge_io::{Failed, Source};
use memchr::memchr;

/// Where the first line feed is.
#[tactic(auto, using(crate::proofs::FirstFeed::first_is_position))]
pub fn first_feed(bytes: &[u8]) -> Option<usize>
    ensures { result ≡ position (λ b. b == 10) bytes.now }
{
    memchr(b'\n', bytes)
}

/// Reads a piece of the source into the room from this place on, and says how many bytes it has.
pub fn read_behind<S: Source>(source: &mut S, room: &mut [u8], end: usize) -> Result<usize, Failed>
    requires { end < length room.old }
    ensures count { IfOk result (λ n. end + n ≤ length room.old) }
    ensures front { take end room.new ≡ take end room.old }
    ensures bytes { (bytes : List ℕ) → S.left source.old ≡ Some bytes →
        IfOk result (λ n. (take (end + n) room.new ≡ take end room.old ++ take n bytes) ×
        (S.left source.new ≡ Some (drop n bytes)) × (n ≡ 0 → bytes ≡ [])) }
    ensures err { OnErr result (S.left source.new ≡ S.left source.old) }
    ensures cause { HasCause (S.faults source.old) (S.faults source.new) result }
{
    let count = source.read(&mut room[end..])?;
    Ok(count)
}

/// Moves the bytes between two places of the room to its front.
pub fn move_to_front(room: &mut [u8], next: usize, end: usize)
    requires rise { next ≤ end }
    requires within { end ≤ length room.old }
    ensures { take (end - next) room.new ≡ drop next (take end room.old) }
{
    room.copy_within(next..end, 0);
}

/// Why no more pieces are read.
#[derive(Clone, Copy)]
pub enum PieceEnd {
    /// There is a line feed at this place.
    Feed(usize),
    /// The source has ended.
    Ended,
    /// More bytes than are allowed stand there.
    Full,
}

/// Reads pieces behind the bytes that stand in the room, which have no line feed, until there is one, the source has
/// ended, or more than so many bytes stand there.
pub fn read_on<S: Source>(
    source: &mut S,
    room: &mut [u8],
    end: &mut usize,
    most: usize,
) -> Result<PieceEnd, Failed>
    requires most { most < length room.old }
    requires within { end.old ≤ length room.old }
    requires no_feed { HasNoFeed (take end.old room.old) }
    ensures within { end.new ≤ length room.old }
    ensures bytes { (bytes : List ℕ) → S.left source.old ≡ Some bytes → (rest : List ℕ) ×
        (S.left source.new ≡ Some rest) × (take end.new room.new ++ rest ≡ take end.old room.old ++ bytes) ×
        (result ≡ Ok PieceEnd.Ended → rest ≡ []) }
    ensures stop { StopsAt result most (take end.new room.new) }
    ensures cause { HasCause (S.faults source.old) (S.faults source.new) result }
{
    while *end <= most {
        let count = read_behind(source, room, *end)?;
        if count == 0 {
            return Ok(PieceEnd::Ended);
        }
        let read = *end;
        *end += count;
        match first_feed(&room[read..*end]) {
            Some(i) => return Ok(PieceEnd::Feed(read + i)),
            None => {}
        }
    }
    Ok(PieceEnd::Full)
}
