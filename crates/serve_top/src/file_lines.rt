ghost use Rattle.std.specs.Prelude.{◌≡◌, ◌==◌};
ghost use Rattle.std.specs.List.{list_all};
ghost use Rattle.serve_top.specs.Files.{behind, config_line, service_line};

use crate::cut::cut_by;

/// How many bytes a line of FILE has at most.
pub(crate) const MAX_FILE_LINE: usize = 65_536;

/// The lines of FILE: the configuration, and the service object, which may be empty.
#[derive(Clone, Copy)]
pub struct FileLines<'a> {
    pub config: &'a [u8],
    pub service: &'a [u8],
    /// What stands behind both.
    pub behind: &'a [u8],
}

/// The lines of FILE.
pub fn split_file(bytes: &[u8]) -> FileLines<'_>
    ensures config { result.config.now ≡ config_line bytes.now }
    ensures service { result.service.now ≡ service_line bytes.now }
    ensures behind { result.behind.now ≡ behind bytes.now }
{
    let (config, rest) = cut_by(b'\n', bytes);
    let (service, behind) = cut_by(b'\n', rest);
    FileLines {
        config,
        service,
        behind,
    }
}

/// Whether nothing but line feeds stands behind the two lines.
pub(crate) fn has_two(lines: &FileLines<'_>) -> bool
    ensures { result ≡ list_all (λ b. b == 10) lines.now.behind.now }
{
    lines.behind.iter().all(|byte| *byte == b'\n')
}
