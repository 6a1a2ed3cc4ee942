ghost use Rattle.std.specs.Prelude.{◌≡◌, map, not, string_bytes};
ghost use Rattle.std.specs.List.{list_all};
ghost use Rattle.serve_words.specs.Options.{is_line, is_place};

use crate::reading::begins_with_hyphen;

/// Each word is one line.
pub(crate) fn are_lines(words: &[String]) -> bool
    ensures { result ≡ list_all is_line (map string_bytes words.now) }
{
    for word in words {
        if word.as_bytes().contains(&b'\n') {
            return false;
        }
    }
    true
}

/// Each word names a file or a folder.
pub(crate) fn are_places(words: &[String]) -> bool
    ensures { result ≡ list_all is_place (map string_bytes words.now) }
{
    for word in words {
        if begins_with_hyphen(word.as_str()) {
            return false;
        }
    }
    true
}
