ghost use Rattle.std.specs.Prelude.{◌≡◌, IfOk, option_map};
ghost use Rattle.frame_hold.specs.Losses.{gives_up, given_up, has_led, is_left, is_nil, loses_points, part_given};

use fabric_terms::{OutOfMemory, Report};
use ring_points::{Epoch, RangeSet, Who};
use std::marker::Model;

/// What a report gives up, so that no frame may leave by which another node could take it over.
#[derive(Clone, Copy, Debug, PartialEq, Eq)]
pub enum GivesUp {
    /// The points of a flight.
    Flight { to: Who, flight: u32 },
    /// The lead of a partition, to this epoch or a later one.
    Epoch { partition: u16, epoch: Epoch },
    /// Points that no flight of the step has.
    Ranges,
    /// All that the instance had: it has left.
    Everything,
}

/// What a report of a step gives up, and the report's place in the step.
#[derive(Clone, Copy, Debug, PartialEq, Eq)]
pub struct Loss {
    pub place: usize,
    pub what: GivesUp,
}

/// What a node had before a step: the points that it owned, and the partitions of which it was primary.
#[derive(Drop)]
pub struct Before {
    owned: RangeSet,
    led: Vec<u16>,
}

impl Model for Before {
    ghost use Rattle.frame_hold.specs.Losses.{Had};

    ghost Value = { Had };

    ghost view = { λ b. record { owned = b.owned; led = b.led.items } };
}

impl Before {
    /// It owned these points, and was primary of these partitions.
    pub fn new(owned: RangeSet, led: Vec<u16>) -> Before
        ensures { result ≡ record { owned = owned; led = led.items } }
    {
        Before { owned, led }
    }

    /// Whether the replica of the partition was primary.
    fn leads(&self, partition: u16) -> bool
        ensures { result ≡ has_led self.now partition }
    {
        self.led.contains(&partition)
    }
}

/// Whether the set has no point.
fn is_empty(points: &RangeSet) -> bool
    ensures { result ≡ is_nil points.now }
{
    points.intervals().is_empty()
}

/// The points of the flight that a report begins.
fn part_of(report: &Report) -> Option<&RangeSet>
    ensures { option_map (λ part. part.now) result ≡ part_given report.now }
{
    match report {
        Report::Gave(_, _, part) => Some(part),
        _ => None,
    }
}

/// Whether something is left of the points when those of the flights that the step began are taken off.
fn is_left(mut points: RangeSet, told: &[Report]) -> bool
    ensures { result ≡ is_left told.now points }
{
    for report in told {
        if let Some(part) = part_of(report) {
            match points.minus(part) {
                Ok(rest) => points = rest,
                Err(_) => return true,
            }
        }
    }
    !is_empty(&points)
}

/// Whether a point was owned that is not in these ranges, and that no flight of the step has. So it says, too, where more
/// than 32 intervals are left on the way.
fn loses_points(before: &Before, told: &[Report], ranges: &RangeSet) -> bool
    ensures { result ≡ loses_points before.now told.now ranges.now }
{
    match before.owned.minus(ranges) {
        Ok(points) => is_left(points, told),
        Err(_) => true,
    }
}

/// What a report of a step gives up, if anything.
pub fn gives_up(before: &Before, told: &[Report], report: &Report) -> Option<GivesUp>
    ensures { result ≡ gives_up before.now told.now report.now }
{
    match report {
        Report::Gave(to, flight, _) => Some(GivesUp::Flight {
            to: *to,
            flight: *flight,
        }),
        Report::Promised(partition, epoch) if before.leads(*partition) => Some(GivesUp::Epoch {
            partition: *partition,
            epoch: *epoch,
        }),
        Report::Own(ranges, _) if loses_points(before, told, ranges) => Some(GivesUp::Ranges),
        Report::LeftRing(_) => Some(GivesUp::Everything),
        _ => None,
    }
}

/// What the reports of a step give up, each with its place. It stands in the place of what the list had.
pub fn given_up(before: &Before, told: &[Report], into: &mut Vec<Loss>) -> Result<(), OutOfMemory>
    ensures { IfOk result (λ _. into.new.items ≡ given_up before.now told.now) }
{
    into.clear();
    for (place, report) in told.iter().enumerate() {
        if let Some(what) = gives_up(before, told, report) {
            into.push(Loss { place, what })?;
        }
    }
    Ok(())
}
