// Why the folders of a ring do not lead to a line 2, in words.
ghost use Rattle.std.specs.Prelude.{◌≡◌, ◌≢◌, ◌++◌, OnOk, decimal, map, string_bytes};
ghost use Rattle.std.specs.List.{list_all};
ghost use Rattle.serve_top.specs.Agains.{RefusesAgain, again_words, folder_at, is_plain_sign, shown_folder};

use crate::end::{End, short};
use again_choice::AgainRefusal;
use fabric_terms::OutOfMemory;
use std::alloc::Global;
use text_fields::{push_bytes, push_number};

/// Whether the sign does not control whatever shows it.
fn is_plain_sign(sign: u8) -> bool
    ensures { result ≡ is_plain_sign sign }
{
    sign >= b' ' && sign != 127
}

/// Whether no sign controls whatever shows it.
fn is_plain(name: &[u8]) -> bool
    ensures { result ≡ list_all is_plain_sign name.now }
{
    name.iter().all(|sign| is_plain_sign(*sign))
}

/// The name of a folder as a line shows it: as `-`, if it has no byte, or one that is a control sign.
fn shown_folder(name: &[u8]) -> &[u8]
    ensures { result.now ≡ shown_folder name.now }
{
    if !name.is_empty() && is_plain(name) {
        name
    } else {
        b"-"
    }
}

/// The name of the folder at this place, as a line shows it.
fn folder_at(names: &[String], place: usize) -> &[u8]
    ensures { result.now ≡ folder_at place (map string_bytes names.now) }
{
    match names.get(place) {
        Some(name) => shown_folder(name.as_bytes()),
        None => b"-",
    }
}

fn push_folder(
    into: &mut Vec<u8>,
    word: &[u8],
    names: &[String],
    place: usize,
) -> Result<(), OutOfMemory>
    ensures { OnOk result (into.new.items ≡ into.old.items
        ++ (word.now ++ folder_at place (map string_bytes names.now))) }
{
    push_bytes(into, word)?;
    push_bytes(into, folder_at(names, place))
}

fn push_missing(into: &mut Vec<u8>, word: &[u8], number: u16) -> Result<(), OutOfMemory>
    ensures { OnOk result (into.new.items ≡ into.old.items ++ (word.now ++ decimal number)) }
{
    push_bytes(into, word)?;
    push_number(into, u64::from(number))
}

/// Appends what is said of a refusal: its word, and which folder it is about.
fn push_refusal(
    into: &mut Vec<u8>,
    refusal: AgainRefusal,
    names: &[String],
) -> Result<(), OutOfMemory>
    ensures words { OnOk result (into.new.items ≡ into.old.items ++ again_words refusal (map string_bytes names.now)) }
    ensures said { OnOk result (refusal ≢ AgainRefusal.OutOfMemory) }
{
    match refusal {
        AgainRefusal::Running(place) => push_folder(into, b"running ", names, place),
        AgainRefusal::Read(place) => push_folder(into, b"read ", names, place),
        AgainRefusal::Other(place) => push_folder(into, b"other ", names, place),
        AgainRefusal::Twice(place) => push_folder(into, b"twice ", names, place),
        AgainRefusal::MissingNode(node) => push_missing(into, b"missing ", node),
        AgainRefusal::MissingArbiter(arbiter) => push_missing(into, b"missing a", arbiter),
        AgainRefusal::NoNode => push_bytes(into, b"none -"),
        AgainRefusal::Many => push_bytes(into, b"many -"),
        AgainRefusal::Unread => push_bytes(into, b"unread -"),
        AgainRefusal::OutOfMemory => Err(OutOfMemory),
    }
}

/// The end where the folders of these names are refused so.
pub(crate) fn refuse_again(alloc: Global, refusal: AgainRefusal, names: &[String]) -> End
    ensures { RefusesAgain refusal (map string_bytes names.now) result }
{
    let mut words = Vec::new(alloc);
    match push_refusal(&mut words, refusal, names) {
        Ok(()) => End::Again(words),
        Err(_) => short(),
    }
}
