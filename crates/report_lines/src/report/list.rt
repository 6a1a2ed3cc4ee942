// Lists of partitions and of names, and what a name stands for.
ghost use Rattle.std.specs.Prelude.{◌≡◌, ◌-◌, [], ◌∷◌, ◌++◌, length, codes, decimal, OnOk};
ghost use Rattle.text_fields.specs.Fields.{Gives, made};
ghost use Rattle.text_fields.specs.Lists.{list_at, some_at};
ghost use Rattle.text_fields.specs.Texts.{Keeps, spaced};
ghost use Rattle.line_format.specs.Commands.{partition_at};
ghost use Rattle.line_format.specs.Lists.{partitions_of, partitions_text, names_of, names_text};
ghost use Rattle.line_format.specs.Names.{name_at};
ghost use Rattle.line_format.specs.Readers.{Reads, value_of, named_of, resolved_made, name_list_of, unresolved_of};

use super::pair::{push_behind, push_number_behind};
use crate::field::{partition_at, partition_word, text_of};
use crate::name::{last_name, name_at, name_word};
use fabric_terms::{NameText, NameTexts, NameValue, OutOfMemory, Partitions, Report};
use line_format::{BadLine, LineRefusal};
use ring_points::{MAX_LISTED_NAMES, MAX_NAME_VALUE};
use std::alloc::Global;
use text_fields::{after_word, push_bytes, push_number};

// Partitions in any order, joined by commas, or a dash where there are none, and what follows them.
fn partitions_at(alloc: Global, words: &[u8]) -> Result<(Vec<u16>, &[u8]), LineRefusal>
    ensures { Reads (λ x. (x.0.items, x.1.now)) result (list_at partition_at (length words.now) words.now) }
{
    let mut partitions = Vec::new(alloc);
    if let Ok(rest) = after_word(b"-", words) {
        return Ok((partitions, rest));
    }
    let (first, mut rest) = partition_at(words)?;
    partitions.push(first)?;
    while let Ok(more) = after_word(b",", rest) {
        let (next, after) = partition_at(more)?;
        partitions.push(next)?;
        rest = after;
    }
    Ok((partitions, rest))
}

/// The known partitions, to the end of the line.
#[tactic(auto, unfolding(line_format::specs::Lists::partitions_of))]
pub fn partitions_of(alloc: Global, words: &[u8]) -> Result<Partitions, LineRefusal>
    ensures { Reads (λ x. x) result (partitions_of words.now) }
{
    match partitions_at(alloc, words)? {
        (partitions, []) => Ok(Partitions::new(partitions)),
        _ => Err(LineRefusal::BadLine),
    }
}

// Partitions, joined by commas, or a dash where there are none.
fn push_partitions(into: &mut Vec<u8>, partitions: &[u16]) -> Result<(), OutOfMemory>
    ensures ok { OnOk result (into.new.items ≡ into.old.items ++ partitions_text partitions.now) }
    ensures kept { Keeps into.old.items into.new.items }
{
    match partitions {
        [] => push_bytes(into, b"-"),
        [first, more @ ..] => {
            push_number(into, u64::from(*first))?;
            for n in more {
                push_number_behind(into, b",", u64::from(*n))?;
            }
            Ok(())
        }
    }
}

/// Appends the known partitions.
pub fn push_units(into: &mut Vec<u8>, partitions: &[u16]) -> Result<(), OutOfMemory>
    ensures ok { OnOk result (into.new.items
        ≡ into.old.items ++ spaced (codes "units" ∷ partitions_text partitions.now ∷ [])) }
    ensures kept { Keeps into.old.items into.new.items }
{
    push_bytes(into, b"units ")?;
    push_partitions(into, partitions)
}

// The value of a name, to the end of the line.
fn value_of(alloc: Global, words: &[u8]) -> Result<NameValue, LineRefusal>
    ensures { Reads (λ x. x) result (value_of words.now) }
{
    let value = text_of(MAX_NAME_VALUE, words)?;
    Ok(NameValue::new(Vec::from_slice(alloc, value)?))
}

/// What a name stands for, behind the report's word.
#[inline(never)]
#[tactic(auto, unfolding(line_format::specs::Readers::named_of))]
pub fn resolved_of(alloc: Global, words: &[u8]) -> Result<Report, LineRefusal>
    ensures { Reads (λ x. x) result (made resolved_made named_of words.now) }
{
    let (partition, rest) = partition_word(words)?;
    let (name, rest) = name_word(rest)?;
    let value = value_of(alloc, rest)?;
    Ok(Report::Resolved(partition, name, value))
}

// A partition and a name, with a word before them that ends with a blank.
fn push_named(
    into: &mut Vec<u8>,
    word: &[u8],
    partition: u16,
    name: &NameText,
) -> Result<(), OutOfMemory>
    ensures ok { OnOk result (into.new.items ≡ into.old.items ++
        (word.now ++ spaced (decimal partition ∷ name.now ∷ []))) }
    ensures kept { Keeps into.old.items into.new.items }
{
    push_number_behind(into, word, u64::from(partition))?;
    push_behind(into, b" ", name.as_slice())
}

/// Appends what a name stands for.
pub fn push_resolved(
    into: &mut Vec<u8>,
    partition: u16,
    name: &NameText,
    value: &NameValue,
) -> Result<(), OutOfMemory>
    ensures ok { OnOk result (into.new.items
        ≡ into.old.items ++ spaced (codes "resolved" ∷ decimal partition ∷ name.now ∷ value.now ∷ [])) }
    ensures kept { Keeps into.old.items into.new.items }
{
    push_named(into, b"resolved ", partition, name)?;
    push_behind(into, b" ", value.as_slice())
}

/// That a name stands for nothing, behind the report's word.
#[tactic(auto, unfolding(line_format::specs::Readers::unresolved_of))]
pub fn unresolved_of(words: &[u8]) -> Result<Report, BadLine>
    ensures { Gives (λ x. x) result (unresolved_of words.now) }
{
    let (partition, rest) = partition_word(words)?;
    Ok(Report::Unresolved(partition, last_name(rest)?))
}

/// Appends that a name stands for nothing.
pub fn push_unresolved(
    into: &mut Vec<u8>,
    partition: u16,
    name: &NameText,
) -> Result<(), OutOfMemory>
    ensures ok { OnOk result (into.new.items
        ≡ into.old.items ++ spaced (codes "unresolved" ∷ decimal partition ∷ name.now ∷ [])) }
    ensures kept { Keeps into.old.items into.new.items }
{
    push_named(into, b"unresolved ", partition, name)
}

// Names joined by commas, and what follows them.
fn some_names_at(alloc: Global, words: &[u8]) -> Result<(Vec<NameText>, &[u8]), LineRefusal>
    ensures { Reads (λ x. (x.0.items, x.1.now)) result (some_at name_at (MAX_LISTED_NAMES - 1) words.now) }
{
    let mut names = Vec::new(alloc);
    let (first, mut rest) = name_at(words)?;
    names.push(first)?;
    while let Ok(more) = after_word(b",", rest) {
        if names.len() == MAX_LISTED_NAMES {
            return Err(LineRefusal::BadLine);
        }
        let (next, after) = name_at(more)?;
        names.push(next)?;
        rest = after;
    }
    Ok((names, rest))
}

// No names, or a blank and then names, to the end of the line.
#[tactic(auto, unfolding(line_format::specs::Lists::names_of))]
fn names_of(alloc: Global, words: &[u8]) -> Result<NameTexts, LineRefusal>
    ensures { Reads (λ x. x) result (names_of words.now) }
{
    if words.is_empty() {
        return Ok(NameTexts::new(Vec::new(alloc)));
    }
    match some_names_at(alloc, after_word(b" ", words)?)? {
        (names, []) => Ok(NameTexts::new(names)),
        _ => Err(LineRefusal::BadLine),
    }
}

/// The names of a partition, behind the report's word.
#[inline(never)]
#[tactic(auto, unfolding(line_format::specs::Readers::name_list_of))]
pub fn name_list_of(alloc: Global, words: &[u8]) -> Result<Report, LineRefusal>
    ensures { Reads (λ x. x) result (name_list_of words.now) }
{
    let (partition, rest) = partition_at(words)?;
    let names = names_of(alloc, rest)?;
    Ok(Report::NameList(partition, names))
}

// Names, each behind a comma but for the first, which stands behind a blank.
fn push_names(into: &mut Vec<u8>, names: &[NameText]) -> Result<(), OutOfMemory>
    ensures ok { OnOk result (into.new.items ≡ into.old.items ++ names_text names.now) }
    ensures kept { Keeps into.old.items into.new.items }
{
    match names {
        [] => Ok(()),
        [first, more @ ..] => {
            push_behind(into, b" ", first.as_slice())?;
            for name in more {
                push_behind(into, b",", name.as_slice())?;
            }
            Ok(())
        }
    }
}

/// Appends the names of a partition.
pub fn push_name_list(
    into: &mut Vec<u8>,
    partition: u16,
    names: &[NameText],
) -> Result<(), OutOfMemory>
    ensures ok { OnOk result (into.new.items
        ≡ into.old.items ++ spaced (codes "names" ∷ (decimal partition ++ names_text names.now) ∷ [])) }
    ensures kept { Keeps into.old.items into.new.items }
{
    push_number_behind(into, b"names ", u64::from(partition))?;
    push_names(into, names)
}
