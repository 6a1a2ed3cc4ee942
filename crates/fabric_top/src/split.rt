ghost use Rattle.std.specs.Prelude.{◌≡◌, ◌≤◌, ℕ, List, IfOk, IfErr, length, map, string_bytes};
ghost use Rattle.clap.specs.Words.{app_of, kind_of};
ghost use Rattle.fabric_top.specs.Splits.{IsSplit, fabric_app, line_of};

use clap::error::ErrorKind;
use clap::{Arg, Command, Error};
use fabric_terms::OutOfMemory;
use std::alloc::{AllocError, Global};

/// A command and its values.
#[derive(Clone, Copy)]
pub(crate) struct Split<'a> {
    pub(crate) command: Option<&'a str>,
    pub(crate) first: Option<&'a str>,
    pub(crate) second: Option<&'a str>,
    pub(crate) third: Option<&'a str>,
}

/// The command line: a command, and three values at most.
fn command_line<'a>(alloc: Global) -> Result<Command<'a>, AllocError>
    ensures { IfOk result (λ c. app_of c ≡ fabric_app) }
{
    Command::new(alloc, "fabric")
        .arg(Arg::new(alloc, "command"))?
        .arg(Arg::new(alloc, "first"))?
        .arg(Arg::new(alloc, "second"))?
        .arg(Arg::new(alloc, "third"))
}

/// The program's name, `--`, and the words. Behind `--` no word is an option, whatever it says.
pub(crate) fn line_of<'a>(alloc: Global, words: &'a [String]) -> Result<Vec<&'a str>, OutOfMemory>
    ensures { IfOk result (λ line. map (λ w. w.now) line.items ≡ line_of (map string_bytes words.now)) }
{
    let mut line = Vec::new(alloc);
    line.push("fabric")?;
    line.push("--")?;
    for word in words {
        line.push(word.as_str())?;
    }
    Ok(line)
}

/// Splits a line of four words at most. It is refused for want of memory alone.
pub(crate) fn split_line<'a>(alloc: Global, line: &'a [&'a str]) -> Result<Split<'a>, Error>
    ensures ok { (words : List (List ℕ)) → length words ≤ 4 → map (λ w. w.now) line.now ≡ line_of words →
        IfOk result (IsSplit words) }
    ensures err { (words : List (List ℕ)) → length words ≤ 4 → map (λ w. w.now) line.now ≡ line_of words →
        IfErr result (λ e. kind_of e ≡ ErrorKind.OutOfMemory) }
{
    let matches = command_line(alloc)?.try_get_matches_from(line)?;
    Ok(Split {
        command: matches.get_str("command"),
        first: matches.get_str("first"),
        second: matches.get_str("second"),
        third: matches.get_str("third"),
    })
}
