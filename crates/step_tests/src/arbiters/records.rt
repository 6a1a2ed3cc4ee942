ghost use Rattle.std.specs.Prelude.{IsTrue};
ghost use Rattle.keep_log.specs.Spellings.{is_sound};

use keep_log::{RECORD_LIMIT, Record, encode_record};
use ring_points::Who;
use std::process::Abort;

const BOOT: &[u8] = b"\x01\x00\x00\x00\x01";

const ACCUSED: &[u8] = b"\x02\x00\x02\x00\x00\x00\x01\x00\x01\x00\x00\x00\x01";

// The claimer 3.1 of the second round about 1.1.
const CLAIMED: &[u8] = b"\x0a\x00\x01\x00\x00\x00\x01\x02\x00\x03\x00\x00\x00\x01";

// The record is written as these bytes, and no more.
fn is_written(rt: &impl Abort, kept: &Record, want: &[u8])
    requires { IsTrue (is_sound kept.now) }
{
    let mut into = [0; RECORD_LIMIT];
    let count = encode_record(kept, &mut into);
    assert_eq!(rt; count, want.len());
    assert_eq!(rt; &into[..count], want);
}

#[test]
fn writes_a_boot(rt: HostRuntime) {
    is_written(&rt, &Record::Boot { instance: 1 }, BOOT);
}

#[test]
fn writes_a_first_accuser(rt: HostRuntime) {
    let accused = Record::AccusedBy {
        victim: Who {
            actor: 2,
            instance: 1,
        },
        first: Who {
            actor: 1,
            instance: 1,
        },
    };
    is_written(&rt, &accused, ACCUSED);
}

#[test]
fn writes_a_claimer(rt: HostRuntime) {
    let claimed = Record::ClaimedBy {
        victim: Who {
            actor: 1,
            instance: 1,
        },
        round: 2,
        claimer: Who {
            actor: 3,
            instance: 1,
        },
    };
    is_written(&rt, &claimed, CLAIMED);
}
