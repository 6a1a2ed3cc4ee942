//! Which reports a log has, and what comes out of a queue that was full.
ghost use Rattle.std.specs.Prelude.{◌≤◌};

use fabric_terms::Report;
use log_lines::{Asking, LineQueue, MAX_QUEUE, Pushed, Written};
use ring_points::{Interval, Point, RangeSet, Who};
use std::alloc::Global;
use std::process::Abort;

/// A client asks about one point.
#[derive(Drop)]
struct OnePoint {
    point: u64,
}

impl Asking for OnePoint {
    ghost use Rattle.std.specs.Prelude.{◌==◌};

    ghost asked = { λ one point. point == one.point };

    fn is_asked(&self, point: Point) -> bool {
        point.0 == self.point
    }
}

const NODE: Who = Who {
    actor: 3,
    instance: 1,
};

/// The first points of the ring, up to this one.
fn own(rt: &impl Abort, hi: u64) -> Report {
    let ranges = RangeSet::from_pairs(&[Interval { lo: 0, hi }]).expect(rt, "ranges");
    Report::Own(ranges, Some(hi))
}

#[test]
fn a_repeated_own_is_not_written(rt: HostRuntime) {
    let asking = OnePoint { point: 7 };
    let mut written = Written::new(false);
    assert!(rt; written.is_written(&Report::Own(RangeSet::new(), None), &asking));
    assert!(rt; !written.is_written(&Report::Own(RangeSet::new(), Some(5)), &asking));
    assert!(rt; written.is_written(&own(&rt, 9), &asking));
    assert!(rt; written.is_written(&Report::Stopped, &asking));
    assert!(rt; !written.is_written(&own(&rt, 9), &asking));
    assert!(rt; written.is_written(&own(&rt, 10), &asking));
    written.begin();
    assert!(rt; written.is_written(&own(&rt, 10), &asking));
}

#[test]
fn an_answer_is_written_if_a_client_asks(rt: HostRuntime) {
    let asking = OnePoint { point: 7 };
    let mut written = Written::new(false);
    assert!(rt; written.is_written(&Report::Found(Point(7), NODE), &asking));
    assert!(rt; !written.is_written(&Report::Found(Point(8), NODE), &asking));
    assert!(rt; written.is_written(&Report::Nowhere(Point(7)), &asking));
    assert!(rt; !written.is_written(&Report::Nowhere(Point(8)), &asking));
    let mut all = Written::new(true);
    assert!(rt; all.is_written(&Report::Nowhere(Point(8)), &asking));
    assert!(rt; all.is_written(&own(&rt, 9), &asking));
    assert!(rt; all.is_written(&own(&rt, 9), &asking));
}

/// A line of so many bytes, with its line feed.
fn line_of(rt: &impl Abort, alloc: Global, count: usize) -> Vec<u8>
    requires { 1 ≤ count }
{
    let mut line = vec![in alloc; b'x'; count].expect(rt, "memory");
    line[count - 1] = b'\n';
    line
}

#[test]
fn a_full_queue_counts_and_says_so(rt: HostRuntime) {
    let alloc = rt.alloc();
    let mut queue = LineQueue::new(alloc).expect(&rt, "memory");
    assert_eq!(rt;
        queue.push(b"T ", &line_of(&rt, alloc, MAX_QUEUE)),
        Pushed::Dropped
    );
    assert_eq!(rt;
        queue.push(b"", &line_of(&rt, alloc, MAX_QUEUE - 9)),
        Pushed::Dropped
    );
    assert_eq!(rt; queue.push(b"T ", b"first\n"), Pushed::Whole);
    assert_eq!(rt; queue.front(), b"T dropped 2\nT first\n".as_slice());
    queue.taken(queue.front().len().min(4));
    assert_eq!(rt; queue.front(), b"opped 2\nT first\n".as_slice());
    assert_eq!(rt;
        queue.push(b"", &line_of(&rt, alloc, MAX_QUEUE - 16)),
        Pushed::Whole
    );
    assert_eq!(rt; queue.front().len(), MAX_QUEUE);
    assert_eq!(rt; queue.push(b"T ", b"\n"), Pushed::Dropped);
    queue.taken(queue.front().len().saturating_sub(1));
    assert_eq!(rt; queue.push(b"U ", b"a\n"), Pushed::Whole);
    assert_eq!(rt; queue.front(), b"\nU a\n".as_slice());
    queue.taken(queue.front().len());
    assert_eq!(rt; queue.push(b"V ", b"b\n"), Pushed::Whole);
    assert_eq!(rt; queue.front(), b"V dropped 1\nV b\n".as_slice());
}
