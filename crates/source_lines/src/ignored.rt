ghost use Rattle.std.specs.Prelude.{◌≡◌};
ghost use Rattle.source_lines.specs.Lines.{is_ignored};

/// Whether the line is empty, or a comment.
pub fn is_ignored(line: &[u8]) -> bool
    ensures { result ≡ is_ignored line.now }
{
    match line {
        [] => true,
        [first, ..] => *first == b'#',
    }
}
