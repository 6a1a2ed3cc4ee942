ghost use Rattle.std.specs.Prelude.{◌≡◌};
ghost use Rattle.status_page.specs.Requests.{IsWanted, page_of};

use crate::limits::MAX_FIELDS;
use crate::wanted::Wanted;
use door_io::MAX_HEAD;
use httparse::Status;
use httparse::spans::{EMPTY_HEADER_SPAN, parse_request};

/// What a request of this method for this path wants.
fn page_of(method: &[u8], path: &[u8]) -> Wanted
    ensures { result ≡ page_of method.now path.now }
{
    if method != b"GET".as_slice() {
        return Wanted::OtherMethod;
    }
    if path == b"/metrics".as_slice() {
        return Wanted::Metrics;
    }
    if path == b"/state".as_slice() {
        return Wanted::State;
    }
    if path == b"/healthz".as_slice() {
        return Wanted::Health;
    }
    Wanted::OtherPath
}

/// What a client wants whose head has come so far. A head past a limit of the page is bad.
pub fn request_of(head: &[u8]) -> Wanted
    ensures { IsWanted head.now result }
{
    let mut fields = [EMPTY_HEADER_SPAN; MAX_FIELDS];
    match parse_request(head, &mut fields) {
        Ok(Status::Complete(spans)) => {
            if spans.len <= MAX_HEAD {
                page_of(spans.method.of(head), spans.path.of(head))
            } else {
                Wanted::Bad
            }
        }
        Ok(Status::Partial) => {
            if head.len() < MAX_HEAD {
                Wanted::More
            } else {
                Wanted::Bad
            }
        }
        Err(_) => Wanted::Bad,
    }
}
