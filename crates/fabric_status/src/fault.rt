ghost use Rattle.std.specs.Prelude.{◌≡◌, ◌++◌, codes, OnOk};
ghost use Rattle.fabric_status.specs.Faults.{fault_line};
ghost use Rattle.text_fields.specs.Texts.{Keeps};

use crate::numbered::{push_numbered, push_two};
use crate::status::Status;
use fabric_config::ConfigError;
use fabric_terms::OutOfMemory;
use std::alloc::Global;
use text_fields::push_bytes;

fn push_named(text: &mut Vec<u8>, front: &[u8], words: &[u8]) -> Result<(), OutOfMemory>
    ensures ok { OnOk result (text.new.items ≡ text.old.items ++ (front.now ++ (words.now ++ codes "\n"))) }
    ensures kept { Keeps text.old.items text.new.items }
{
    push_bytes(text, front)?;
    push_bytes(text, words)?;
    push_bytes(text, b"\n")
}

fn push_config(alloc: Global, text: &mut Vec<u8>, error: ConfigError) -> Result<(), OutOfMemory>
    ensures ok { OnOk result (text.new.items ≡ text.old.items ++ fault_line (Status.BadConfig error)) }
    ensures kept { Keeps text.old.items text.new.items }
{
    match error.words(alloc) {
        Ok(words) => push_named(text, b"fault config ", words.as_bytes()),
        Err(_) => Err(OutOfMemory),
    }
}

/// Appends the line that names a status, where it has one. At want of memory a front of it may be written.
pub fn push_fault(alloc: Global, text: &mut Vec<u8>, status: Status) -> Result<(), OutOfMemory>
    ensures ok { OnOk result (text.new.items ≡ text.old.items ++ fault_line status) }
    ensures kept { Keeps text.old.items text.new.items }
{
    match status {
        Status::Ok | Status::OutOfMemory | Status::WriteFault | Status::Left(_) => Ok(()),
        Status::Usage => push_bytes(text, b"fault usage\n"),
        Status::ReadFault => push_bytes(text, b"fault read\n"),
        Status::BadConfig(error) => push_config(alloc, text, error),
        Status::BadLine(n) => push_numbered(text, b"fault line ", n),
        Status::DriftBroken(n) => push_numbered(text, b"fault drift ", n),
        Status::NoSuch(n) => push_numbered(text, b"fault nosuch ", n),
        Status::TooLarge(n) => push_numbered(text, b"fault large ", n),
        Status::KeepFault => push_bytes(text, b"fault keep\n"),
        Status::LinkFault => push_bytes(text, b"fault link\n"),
        Status::ClockBack(former, latter) => push_two(text, b"fault clock ", former, latter),
        Status::BadKeep(i) => push_numbered(text, b"fault record ", i as u64),
        Status::TableFull => push_bytes(text, b"fault table\n"),
    }
}
