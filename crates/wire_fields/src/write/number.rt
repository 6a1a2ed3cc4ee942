// Numbers, written from a place on. Each call gives the place after what it wrote.

ghost use Rattle.std.specs.Prelude.{◌≡◌, ◌≤◌, ◌+◌, length};
ghost use Rattle.wire_fields.specs.Texts.{number_bytes, one_byte, session_bytes, flag_bytes};
ghost use Rattle.wire_fields.specs.Writers.{Puts};

use byteorder::{BigEndian, ByteOrder};

/// A byte.
pub fn put_u8(into: &mut [u8], at: usize, n: u8) -> usize
    requires { at + 1 ≤ length into.old }
    ensures wrote { Puts (one_byte n) into.old at into.new result }
    ensures end { result ≡ at + 1 }
{
    into[at] = n;
    at + 1
}

/// A number of 2 bytes, the highest first.
pub fn put_u16(into: &mut [u8], at: usize, n: u16) -> usize
    requires { at + 2 ≤ length into.old }
    ensures wrote { Puts (number_bytes 2 n) into.old at into.new result }
    ensures end { result ≡ at + 2 }
{
    BigEndian::write_u16(&mut into[at..at + 2], n);
    at + 2
}

/// A number of 4 bytes, the highest first.
pub fn put_u32(into: &mut [u8], at: usize, n: u32) -> usize
    requires { at + 4 ≤ length into.old }
    ensures wrote { Puts (number_bytes 4 n) into.old at into.new result }
    ensures end { result ≡ at + 4 }
{
    BigEndian::write_u32(&mut into[at..at + 4], n);
    at + 4
}

/// A number of 8 bytes, the highest first.
pub fn put_u64(into: &mut [u8], at: usize, n: u64) -> usize
    requires { at + 8 ≤ length into.old }
    ensures wrote { Puts (number_bytes 8 n) into.old at into.new result }
    ensures end { result ≡ at + 8 }
{
    BigEndian::write_u64(&mut into[at..at + 8], n);
    at + 8
}

/// A flag.
#[tactic(auto, unfolding(crate::specs::Texts::flag_bytes))]
pub fn put_flag(into: &mut [u8], at: usize, flag: bool) -> usize
    requires { at + 1 ≤ length into.old }
    ensures wrote { Puts (flag_bytes flag) into.old at into.new result }
    ensures end { result ≡ at + 1 }
{
    put_u8(into, at, if flag { 1 } else { 0 })
}

/// The sender's and the receiver's number of a session.
#[tactic(auto, unfolding(crate::specs::Texts::session_bytes))]
pub fn put_session(into: &mut [u8], at: usize, mine: u32, yours: u32) -> usize
    requires { at + 8 ≤ length into.old }
    ensures wrote { Puts (session_bytes mine yours) into.old at into.new result }
    ensures end { result ≡ at + 8 }
{
    let at = put_u32(into, at, mine);
    put_u32(into, at, yours)
}
