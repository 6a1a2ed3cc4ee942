ghost use Rattle.std.specs.Prelude.{◌≡◌, map, option_map, string_bytes};
ghost use Rattle.serve_words.specs.Options.{after_flag, after_option, after_value, begins_with_hyphen, cut, name_of};
ghost use Rattle.serve_words.specs.Options.{next_in, options_in, read_on, reading_of, start, texts_of};

use crate::given::{Given, Name};

/// What was read of the words behind FILE: the options so far, and the one whose value is the next word.
#[derive(Clone, Copy)]
struct Reading<'a> {
    given: Given<'a>,
    awaited: Option<Name>,
}

/// The word is not a value of its own: `-` may begin an option alone.
pub(crate) fn begins_with_hyphen(word: &str) -> bool
    ensures { result ≡ begins_with_hyphen word.now }
{
    match word.as_bytes() {
        [first, ..] => *first == b'-',
        [] => false,
    }
}

fn name_of(word: &str) -> Option<Name>
    ensures { result ≡ name_of word.now }
{
    if word == "--folder" {
        Some(Name::Folder)
    } else if word == "--listen" {
        Some(Name::Listen)
    } else if word == "--page" {
        Some(Name::Page)
    } else if word == "--key" {
        Some(Name::Key)
    } else if word == "--hold" {
        Some(Name::Hold)
    } else {
        None
    }
}

/// The word before its first `=`, and behind it.
fn cut(word: &str) -> (&str, Option<&str>)
    ensures { (result.0.now, option_map (λ s. s.now) result.1) ≡ cut word.now }
{
    match word.split_once('=') {
        Some((name, value)) => (name, Some(value)),
        None => (word, None),
    }
}

impl<'a> Reading<'a> {
    fn new() -> Reading<'a>
        ensures { reading_of result ≡ start }
    {
        Reading {
            given: Given::new(),
            awaited: None,
        }
    }

    fn after_value(given: Given<'a>, name: Name, value: &'a str) -> Option<Reading<'a>>
        ensures { option_map reading_of result ≡ after_value name value.now (texts_of given.entry) }
    {
        let given = given.put(name, value)?;
        Some(Reading {
            given,
            awaited: None,
        })
    }

    fn after_flag(given: Given<'a>) -> Option<Reading<'a>>
        ensures { option_map reading_of result ≡ after_flag (texts_of given.entry) }
    {
        if given.parent {
            return None;
        }
        let mut given = given;
        given.parent = true;
        Some(Reading {
            given,
            awaited: None,
        })
    }

    fn after_option(given: Given<'a>, word: &'a str) -> Option<Reading<'a>>
        ensures { option_map reading_of result ≡ after_option word.now (texts_of given.entry) }
    {
        let (name, value) = cut(word);
        let name = name_of(name)?;
        match value {
            Some(value) => Reading::after_value(given, name, value),
            None => Some(Reading {
                given,
                awaited: Some(name),
            }),
        }
    }

    /// What was read after one more word.
    fn next(self, word: &'a str) -> Option<Reading<'a>>
        ensures { option_map reading_of result ≡ next_in (reading_of self.entry) word.now }
    {
        match self.awaited {
            Some(_) if begins_with_hyphen(word) => None,
            Some(name) => Reading::after_value(self.given, name, word),
            None if word == "--parent" => Reading::after_flag(self.given),
            None => Reading::after_option(self.given, word),
        }
    }
}

/// What was read after these words too. They are few: each option comes once.
fn read_on<'a>(reading: Reading<'a>, words: &'a [String]) -> Option<Reading<'a>>
    ensures { option_map reading_of result ≡ read_on (reading_of reading.entry) (map string_bytes words.now) }
{
    match words {
        [] => Some(reading),
        [word, rest @ ..] => read_on(reading.next(word.as_str())?, rest),
    }
}

/// The options that the words are. None where they are anything else, or one of them comes twice.
pub(crate) fn options_in<'a>(words: &'a [String]) -> Option<Given<'a>>
    ensures { option_map texts_of result ≡ options_in (map string_bytes words.now) }
{
    let reading = read_on(Reading::new(), words)?;
    match reading.awaited {
        None => Some(reading.given),
        Some(_) => None,
    }
}
