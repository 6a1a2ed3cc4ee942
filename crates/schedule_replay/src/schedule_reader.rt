ghost use Rattle.std.specs.Prelude.{◌≡◌, [], IfOk};

use ring_world::FramePlace;
use sched_text::TickReadings;
use source_lines::LineReader;
use std::alloc::{AllocError, Global};

/// Places that serve each line, so that each is made once.
#[derive(Drop)]
pub struct EventPlaces {
    /// The readings of a tick.
    pub readings: TickReadings,
    /// The frame that is given.
    pub frame: FramePlace,
}

/// What the lines of a schedule are read with.
#[derive(Drop)]
pub struct ScheduleReader {
    pub lines: LineReader,
    pub places: EventPlaces,
}

impl ScheduleReader {
    /// Nothing is read yet.
    pub fn new(alloc: Global) -> Result<ScheduleReader, AllocError>
        ensures { IfOk result (λ r. r.lines.waiting ≡ []) }
    {
        Ok(ScheduleReader {
            lines: LineReader::new(alloc)?,
            places: EventPlaces {
                readings: TickReadings::new(),
                frame: FramePlace::new(),
            },
        })
    }
}
