// What a node's parent asks.
ghost use Rattle.text_fields.specs.Fields.{Gives, last};
ghost use Rattle.line_format.specs.Commands.{partition_at};
ghost use Rattle.door_lines.specs.Requests.{Puts, parent_request_of};

use super::node::read_node_request;
use crate::asked::{Request, Speaker};
use line_format::BadLine;
use ring_points::{MAX_PARTITIONS, Point};
use text_fields::{BadField, after_word, last_number, last_point};

/// A partition that nothing follows.
fn last_partition(words: &[u8]) -> Result<u16, BadField>
    ensures { Gives (λ x. x) result (last partition_at words.now) }
{
    Ok(last_number(0, MAX_PARTITIONS as u64 - 1, words)? as u16)
}

/// Reads what a node's parent asks.
#[tactic(auto, unfolding(crate::specs::Requests::parent_request_of))]
pub fn read_parent_request(words: &[u8], request: &mut Request) -> Result<(), BadLine>
    ensures { Puts result request.old request.new (parent_request_of words.now) }
{
    if let Ok(rest) = after_word(b"hold ", words) {
        *request = Request::Hold(Point(last_point(rest)?));
        Ok(())
    } else if let Ok(rest) = after_word(b"lead ", words) {
        *request = Request::Lead(last_partition(rest)?);
        Ok(())
    } else {
        read_node_request(Speaker::Parent, words, request)
    }
}
