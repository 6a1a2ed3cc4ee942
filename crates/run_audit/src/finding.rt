ghost use Rattle.std.specs.Prelude.{◌≡◌, All};
ghost use Rattle.run_audit.specs.Overlaps.{Rises};
ghost use Rattle.run_audit.specs.Findings.{Finds, breach_of};

use crate::bounds::Lapse;
use crate::breach::Breach;
use crate::overlap::{LiveHolder, first_overlap};
use crate::primaries::Rivals;
use crate::take_overs::TakeOvers;
use crate::victim::first_victim;
use ring_points::Point;

/// What is wrong with the reports so far.
#[derive(Clone, Copy)]
pub struct Findings {
    pub rivals: Option<Rivals>,
    pub lapse: Option<Lapse>,
}

/// The breach by the reports, if there is one.
fn breach_of(line: u64, findings: Findings) -> Option<Breach>
    ensures { result ≡ breach_of line findings.rivals findings.lapse }
{
    if let Some(r) = findings.rivals {
        return Some(Breach::Primary {
            line,
            partition: r.partition,
            epoch: r.epoch,
            a: r.a,
            b: r.b,
        });
    }
    match findings.lapse {
        Some(l) => Some(Breach::Older {
            line,
            node: l.node,
            partition: l.partition,
            had: l.had,
            got: l.got,
        }),
        None => None,
    }
}

/// The breach at the end of a run that was safe a moment ago: two holders of a point first, then a victim that holds
/// one, then what is wrong with the reports.
pub fn breach_at(
    line: u64,
    rows: &[LiveHolder],
    taken: &TakeOvers,
    findings: Findings,
) -> Option<Breach>
    requires { All Rises rows.now }
    ensures { Finds line rows.now taken.now findings result }
{
    if let Some(o) = first_overlap(rows) {
        return Some(Breach::Ring {
            line,
            point: Point(o.point),
            a: o.a,
            b: o.b,
        });
    }
    match first_victim(rows, taken) {
        Some(v) => Some(Breach::Early {
            line,
            victim: v.who,
            point: Point(v.point),
        }),
        None => breach_of(line, findings),
    }
}
