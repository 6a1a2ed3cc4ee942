ghost use Rattle.std.specs.Prelude.{◌≡◌, ◌≤◌, ◌∷◌, ◌++◌, [], false, length, map, vec_items};
ghost use Rattle.std.specs.Bool.{OnFalse, OnTrue};
ghost use Rattle.edge_io.specs.Plan.{counted};
ghost use Rattle.door_io.specs.Memory.{fresh_log};

use crate::log::ReportLog;
use std::alloc::Global;
use std::marker::Model;

/// A log in memory with room for so many lines. It tells all.
#[derive(Drop)]
pub struct MemReportLog {
    alloc: Global,
    room: usize,
    lines: Vec<Vec<u8>>,
    dropped: u64,
}

impl Model for MemReportLog {
    ghost use Rattle.std.specs.Prelude.{map, vec_items};
    ghost use Rattle.door_io.specs.Memory.{ToldLog};

    ghost Value = { ToldLog };

    ghost view = { λ l. record { room = l.room; lines = map vec_items l.lines.items; dropped = l.dropped } };
}

impl MemReportLog {
    /// No line is in it, and it takes so many.
    pub fn new(alloc: Global, room: usize) -> Self
        ensures { result ≡ fresh_log room }
    {
        MemReportLog {
            alloc,
            room,
            lines: Vec::new(alloc),
            dropped: 0,
        }
    }

    /// The lines in it, in order.
    pub fn lines(&self) -> &[Vec<u8>]
        ensures { map vec_items result.now ≡ self.now.lines }
    {
        &self.lines
    }

    /// How many lines were dropped.
    pub fn dropped(&self) -> u64
        ensures { result ≡ self.now.dropped }
    {
        self.dropped
    }

    /// Keeps a copy of the line, and says whether it did. It does not where the log is full or no memory is left.
    fn keep(&mut self, line: &[u8]) -> bool
        ensures kept { OnTrue result (self.new ≡ record self.old { lines = self.old.lines ++ line.now ∷ [] }) }
        ensures refused { OnFalse result (self.new ≡ self.old) }
        ensures full { self.old.room ≤ length self.old.lines → result ≡ false }
    {
        if self.lines.len() >= self.room {
            return false;
        }
        match Vec::from_slice(self.alloc, line) {
            Ok(copy) => self.lines.push(copy).is_ok(),
            Err(_) => false,
        }
    }

    /// Counts a line as dropped.
    fn count(&mut self)
        ensures { self.new ≡ record self.old { dropped = counted self.old.dropped } }
    {
        self.dropped = self.dropped.saturating_add(1);
    }
}

impl ReportLog for MemReportLog {
    ghost use Rattle.std.specs.Prelude.{Some};

    ghost logged = { λ l. Some l.lines };

    ghost dropped = { λ l. l.dropped };

    fn log(&mut self, line: &[u8]) {
        if !self.keep(line) {
            self.count();
        }
    }

    fn lose(&mut self) {
        self.count();
    }
}
