ghost use Rattle.std.specs.Prelude.{◌≤◌, length};
ghost use Rattle.serve_edge.specs.ActorLines.{IsLinesEnd};

/// How many bytes the lines at the front have that end with a line feed.
pub fn whole_lines(bytes: &[u8]) -> usize
    ensures within { result ≤ length bytes.now }
    ensures lines { IsLinesEnd bytes.now result }
{
    let mut end = bytes.len();
    while end > 0 {
        if bytes[end - 1] == b'\n' {
            return end;
        }
        end -= 1;
    }
    end
}
