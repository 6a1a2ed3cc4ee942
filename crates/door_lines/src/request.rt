ghost use Rattle.std.specs.Prelude.{◌≡◌, Some, None, IfErr, OnOk, OnErr};
ghost use Rattle.std.specs.Str.{bytes_eq};
ghost use Rattle.text_fields.specs.Fields.{Gives};
ghost use Rattle.door_lines.specs.Requests.{Puts, asked_of, done_of, own_request_of, request_of, tag_at, tag_of};

mod node;
mod parent;

use crate::asked::{Asked, BadRequest, Request, Speaker};
use line_format::BadLine;
pub use node::MAX_LISTED_ENTRIES;
use node::read_node_request;
use parent::read_parent_request;
use text_fields::{BadField, after_word, last_number, number_word};

/// The tag at the front of a line and the blank behind it, and what follows.
#[tactic(auto, unfolding(crate::specs::Requests::tag_at))]
fn tag_at(line: &[u8]) -> Result<(u32, &[u8]), BadField>
    ensures { Gives (λ x. (x.0, x.1.now)) result (tag_at line.now) }
{
    let (tag, words) = number_word(0, u64::from(u32::MAX), after_word(b"@", line)?)?;
    Ok((tag as u32, words))
}

fn is_word(words: &[u8], word: &[u8]) -> bool
    ensures { result ≡ bytes_eq words.now word.now }
{
    words == word
}

/// Reads what not every actor is asked.
fn read_own_request(speaker: Speaker, words: &[u8], request: &mut Request) -> Result<(), BadLine>
    ensures { Puts result request.old request.new (own_request_of speaker words.now) }
{
    match speaker {
        Speaker::NodeClient | Speaker::ChildClient => read_node_request(speaker, words, request),
        Speaker::Parent => read_parent_request(words, request),
        Speaker::ArbiterClient => Err(BadLine),
    }
}

/// Reads a request of this speaker.
#[tactic(auto, unfolding(crate::specs::Requests::request_of))]
fn read_request(speaker: Speaker, words: &[u8], request: &mut Request) -> Result<(), BadLine>
    ensures { Puts result request.old request.new (request_of speaker words.now) }
{
    if is_word(words, b"state") {
        *request = Request::State;
        Ok(())
    } else if is_word(words, b"watch") {
        *request = Request::Watch;
        Ok(())
    } else if is_word(words, b"watch all") {
        *request = Request::WatchAll;
        Ok(())
    } else if is_word(words, b"leave") {
        *request = Request::Leave;
        Ok(())
    } else if is_word(words, b"end") {
        *request = Request::End;
        Ok(())
    } else {
        read_own_request(speaker, words, request)
    }
}

/// Reads a line that this speaker asked, without its line feed, and puts it where it is to stay: a command is large. A
/// refusal comes exactly where the bytes are no line that this speaker may ask, and leaves what was there.
pub fn read_asked(speaker: Speaker, line: &[u8], asked: &mut Asked) -> Result<(), BadRequest>
    ensures ok { OnOk result (asked_of speaker line.now ≡ Some asked.new) }
    ensures err { OnErr result (asked_of speaker line.now ≡ None) }
    ensures kept { OnErr result (asked.new ≡ asked.old) }
    ensures tag { IfErr result (λ refusal. refusal.tag ≡ tag_of line.now) }
{
    let Ok((tag, words)) = tag_at(line) else {
        return Err(BadRequest { tag: None });
    };
    match read_request(speaker, words, &mut asked.request) {
        Ok(()) => {
            asked.tag = tag;
            Ok(())
        }
        Err(_) => Err(BadRequest { tag: Some(tag) }),
    }
}

/// Reads the line by which a parent answers that it has let go, `done K`, without its line feed. BadLine comes exactly
/// where the bytes are no such line.
#[tactic(auto, unfolding(crate::specs::Requests::done_of))]
pub fn read_done(line: &[u8]) -> Result<u64, BadLine>
    ensures { Gives (λ x. x) result (done_of line.now) }
{
    Ok(last_number(1, u64::MAX, after_word(b"done ", line)?)?)
}
