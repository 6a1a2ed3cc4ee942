ghost use Rattle.std.specs.Prelude.{◌≡◌, ◌≤◌, false, IfSome, Some, bytes_eq, codes, drop, is_some, map, option_map};
ghost use Rattle.std.specs.Prelude.{slice_get, string_bytes};
ghost use Rattle.serve_words.specs.Forms.{again_form, arbiter_form, arbiter_with, ask_form, check_form, form_of};
ghost use Rattle.serve_words.specs.Forms.{node_form, node_with, number_of, one_word, parent_of, plain, settings_in};
ghost use Rattle.serve_words.specs.Forms.{settings_of, with_values};
ghost use Rattle.serve_words.specs.Options.{texts_of};
ghost use Rattle.serve_words.specs.Splits.{IsSplit};

use crate::form::{Parent, ServeForm, ServeOptions};
use crate::given::Given;
use crate::kinds::{are_lines, are_places};
use crate::reading::{begins_with_hyphen, options_in};
use crate::split::{Split, behind, places_of};
use ring_points::{MAX_ARBITRATORS, MAX_NODE_NUMBER};
use text_fields::last_number;

/// For how many ticks a frame is held at most, as far as the words say.
const MAX_HOLD: u64 = 1_000_000_000;

/// The number that the word is, where it is one of these.
fn number_of(least: u64, greatest: u64, word: &str) -> Option<u64>
    ensures number { result ≡ number_of least greatest word.now }
    ensures range { IfSome result (λ n. (least ≤ n) × (n ≤ greatest)) }
{
    last_number(least, greatest, word.as_bytes()).ok()
}

fn settings_of<'a>(given: &Given<'a>) -> ServeOptions<'a>
    ensures { settings_in result ≡ settings_of (texts_of given.now) }
{
    ServeOptions {
        folder: given.folder,
        listen: given.listen,
        page: given.page,
        key: given.key,
    }
}

/// The parent that the options speak of, if any. None is `--hold` without `--parent`, or no number of ticks.
fn parent_of(parent: bool, hold: Option<&str>) -> Option<Option<Parent>>
    ensures { result ≡ parent_of parent (option_map (λ s. s.now) hold.entry) }
{
    match (parent, hold) {
        (false, None) => Some(None),
        (false, Some(_)) => None,
        (true, None) => Some(Some(Parent { hold: None })),
        (true, Some(hold)) => {
            let hold = number_of(1, MAX_HOLD, hold)?;
            Some(Some(Parent { hold: Some(hold) }))
        }
    }
}

fn node_with<'a>(node: u16, file: &'a str, given: &Given<'a>) -> Option<ServeForm<'a>>
    ensures { option_map plain result ≡ node_with node file.now (texts_of given.now) }
{
    let parent = parent_of(given.parent, given.hold)?;
    Some(ServeForm::Node {
        node,
        file,
        options: settings_of(given),
        parent,
    })
}

fn node_form<'a>(number: &str, file: &'a str, words: &'a [String]) -> Option<ServeForm<'a>>
    ensures { option_map plain result ≡ node_form number.now file.now (map string_bytes words.now) }
{
    if begins_with_hyphen(file) {
        return None;
    }
    let node = number_of(1, u64::from(MAX_NODE_NUMBER), number)?;
    let given = options_in(words)?;
    node_with(node as u16, file, &given)
}

fn arbiter_with<'a>(arbiter: u8, file: &'a str, given: &Given<'a>) -> Option<ServeForm<'a>>
    ensures { option_map plain result ≡ arbiter_with arbiter file.now (texts_of given.now) }
{
    if given.parent || given.hold.is_some() {
        return None;
    }
    Some(ServeForm::Arbiter {
        arbiter,
        file,
        options: settings_of(given),
    })
}

fn arbiter_form<'a>(number: &str, file: &'a str, words: &'a [String]) -> Option<ServeForm<'a>>
    ensures { option_map plain result ≡ arbiter_form number.now file.now (map string_bytes words.now) }
{
    if begins_with_hyphen(file) {
        return None;
    }
    let arbiter = number_of(1, MAX_ARBITRATORS as u64, number)?;
    let given = options_in(words)?;
    arbiter_with(arbiter as u8, file, &given)
}

fn check_form<'a>(file: &'a str, more: &[String]) -> Option<ServeForm<'a>>
    ensures { option_map plain result ≡ check_form file.now (map string_bytes more.now) }
{
    if more.is_empty() && !begins_with_hyphen(file) {
        Some(ServeForm::Check { file })
    } else {
        None
    }
}

fn ask_form<'a>(folder: &'a str, lines: &'a [String]) -> Option<ServeForm<'a>>
    ensures { option_map plain result ≡ ask_form folder.now (map string_bytes lines.now) }
{
    if !lines.is_empty() && !begins_with_hyphen(folder) && are_lines(lines) {
        Some(ServeForm::Ask { folder, lines })
    } else {
        None
    }
}

fn again_form<'a>(file: &'a str, folders: &'a [String]) -> Option<ServeForm<'a>>
    ensures { option_map plain result ≡ again_form file.now (map string_bytes folders.now) }
{
    if !folders.is_empty() && !begins_with_hyphen(file) && are_places(folders) {
        Some(ServeForm::Again { file, folders })
    } else {
        None
    }
}

/// The form that one word is.
fn one_word<'a>(command: &str) -> Option<ServeForm<'a>>
    ensures { option_map plain result ≡ one_word command.now }
{
    if command == "--help" {
        Some(ServeForm::Help)
    } else if command == "--version" {
        Some(ServeForm::Version)
    } else {
        None
    }
}

/// The form of a command with values: `values` are the words behind it. `first` is the first of them, and `second` the
/// second, where the command is not `ask`.
fn with_values<'a>(
    command: &str,
    first: &'a str,
    second: Option<&'a str>,
    values: &'a [String],
) -> Option<ServeForm<'a>>
    requires first { slice_get (map string_bytes values.now) 0 ≡ Some first.now }
    requires second { bytes_eq command.now (codes "ask") ≡ false
        → option_map (λ s. s.now) second ≡ slice_get (map string_bytes values.now) 1 }
    ensures { option_map plain result ≡ with_values command.now first.now (drop 1 (map string_bytes values.now)) }
{
    let more = behind(values);
    if command == "node" {
        node_form(first, second?, behind(more))
    } else if command == "arbiter" {
        arbiter_form(first, second?, behind(more))
    } else if command == "check" {
        check_form(first, more)
    } else if command == "ask" {
        ask_form(first, more)
    } else if command == "again" {
        again_form(first, more)
    } else {
        None
    }
}

/// The form that the words are, where they are split so.
pub(crate) fn form_in<'a>(split: &Split<'a>, words: &'a [String]) -> Option<ServeForm<'a>>
    requires { IsSplit (map string_bytes words.now) split.now }
    ensures { option_map plain result ≡ form_of (map string_bytes words.now) }
{
    let command = split.command?;
    match split.first {
        None => one_word(command),
        Some(first) => with_values(command, first, split.second, behind(words)),
    }
}

/// Whether the words, without the program's name, are one of the forms.
pub(crate) fn is_form(words: &[String]) -> bool
    ensures { result ≡ is_some (form_of (map string_bytes words.now)) }
{
    form_in(&places_of(words), words).is_some()
}
