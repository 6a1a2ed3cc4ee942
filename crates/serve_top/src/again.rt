// How a ring whose nodes have all stopped begins again: which line 2 its folders lead to.
ghost use Rattle.std.specs.Prelude.{◌≡◌, ◌++◌, IfErr, IfOk, codes, map, string_bytes};
ghost use Rattle.serve_top.specs.Addresses.{short as at_want};
ghost use Rattle.serve_top.specs.Agains.{IsAgainLine, IsRefusedAgain};

use crate::again_refusal::refuse_again;
use crate::end::End;
use crate::setup::Setup;
use again_choice::{Found, choose, line_of};
use std::alloc::Global;

/// The line, with its line feed.
fn bytes_of(line: String) -> Result<Vec<u8>, End>
    ensures line { IfOk result (λ bytes. bytes.items ≡ string_bytes line ++ codes "\n") }
    ensures memory { IfErr result (λ e. e ≡ at_want) }
{
    let mut bytes = line.into_bytes();
    bytes.push(b'\n')?;
    Ok(bytes)
}

/// The line 2 by which the ring of these folders begins again, with its line feed; or why the folders do not lead to
/// one. The folders have these names, in this order.
pub fn again_line(
    alloc: Global,
    setup: Setup,
    folders: &[Found],
    names: &[String],
) -> Result<Vec<u8>, End>
    ensures line { IfOk result (λ line. IsAgainLine setup folders.now line.items) }
    ensures refused { IfErr result (IsRefusedAgain setup folders.now (map string_bytes names.now)) }
{
    let (config, settings, checksum) = (setup.config, setup.settings, setup.checksum);
    let choice = match choose(alloc, &config, &checksum, folders) {
        Ok(choice) => choice,
        Err(refusal) => return Err(refuse_again(alloc, refusal, names)),
    };
    match line_of(alloc, &config, settings, choice) {
        Ok(line) => bytes_of(line),
        Err(refusal) => Err(refuse_again(alloc, refusal, names)),
    }
}
