ghost use Rattle.std.specs.Prelude.{◌≡◌, ◌≤◌, true, IfOk, IfErr, drop, length, map, option_map, slice_get};
ghost use Rattle.std.specs.Prelude.{string_bytes};
ghost use Rattle.std.specs.List.{list_all};
ghost use Rattle.clap.specs.Words.{app_of, kind_of};
ghost use Rattle.serve_words.specs.Options.{is_place};
ghost use Rattle.serve_words.specs.Splits.{IsSplit, fabricd_app, front, is_short};

use clap::error::ErrorKind;
use clap::{Arg, Command, Error};
use std::alloc::{AllocError, Global};

/// A command and its values.
#[derive(Clone, Copy)]
pub(crate) struct Split<'a> {
    pub(crate) command: Option<&'a str>,
    pub(crate) first: Option<&'a str>,
    pub(crate) second: Option<&'a str>,
}

/// The command line: a command, and two values at most. It has the words alone, and not the program's name.
fn command_line<'a>(alloc: Global) -> Result<Command<'a>, AllocError>
    ensures { IfOk result (λ c. app_of c ≡ fabricd_app) }
{
    Command::new(alloc, "fabricd")
        .no_binary_name(true)
        .arg(Arg::new(alloc, "command"))?
        .arg(Arg::new(alloc, "first"))?
        .arg(Arg::new(alloc, "second"))
}

/// The words behind the first one.
pub(crate) fn behind(words: &[String]) -> &[String]
    ensures { map string_bytes result.now ≡ drop 1 (map string_bytes words.now) }
{
    match words {
        [_, rest @ ..] => rest,
        [] => words,
    }
}

/// The words are a command by itself, or no words.
pub(crate) fn is_short(words: &[String]) -> bool
    ensures { result ≡ is_short (map string_bytes words.now) }
{
    match words {
        [_, _, ..] => false,
        _ => true,
    }
}

/// The words that `clap` splits. A line of `ask` may say anything, so it is none of them.
pub(crate) fn front(words: &[String]) -> &[String]
    ensures front { map string_bytes result.now ≡ front (map string_bytes words.now) }
    ensures few { length result.now ≤ 3 }
{
    match words {
        [command, _, _, ..] if command.as_str() == "ask" => &words[..2],
        [_, _, _, _, ..] => &words[..3],
        _ => words,
    }
}

fn word_at(words: &[String], place: usize) -> Option<&str>
    ensures { option_map (λ w. w.now) result ≡ slice_get (map string_bytes words.now) place }
{
    match words.get(place) {
        Some(word) => Some(word.as_str()),
        None => None,
    }
}

/// The words at their places.
pub(crate) fn places_of(words: &[String]) -> Split<'_>
    ensures { IsSplit (map string_bytes words.now) result }
{
    Split {
        command: word_at(words, 0),
        first: word_at(words, 1),
        second: word_at(words, 2),
    }
}

/// Splits three words at most, none of which begins with a hyphen. It is refused for want of memory alone.
pub(crate) fn split_words<'a>(alloc: Global, words: &'a [String]) -> Result<Split<'a>, Error>
    requires few { length words.now ≤ 3 }
    requires places { list_all is_place (map string_bytes words.now) ≡ true }
    ensures ok { IfOk result (IsSplit (map string_bytes words.now)) }
    ensures err { IfErr result (λ e. kind_of e ≡ ErrorKind.OutOfMemory) }
{
    let matches = command_line(alloc)?.try_get_matches_from(words)?;
    Ok(Split {
        command: matches.get_str("command"),
        first: matches.get_str("first"),
        second: matches.get_str("second"),
    })
}
