// What stand-ins note of the calls that they get.
use std::alloc::Global;
use std::cell::Cell;
use std::fmt::Display;
use std::io;
use std::process::Abort;

/// Lines, in the order in which they were noted.
#[derive(Drop)]
pub struct Notes {
    alloc: Global,
    lines: Cell<Vec<String>>,
}

impl Notes {
    pub fn new(alloc: Global) -> Self {
        Notes {
            alloc,
            lines: Cell::new(Vec::new(alloc)),
        }
    }

    pub fn add<D: Display + Drop>(&self, line: D) -> io::Result<()> {
        let mut lines = self.take();
        lines.push(format!(in self.alloc; "{line}")?)?;
        self.lines.set(lines);
        Ok(())
    }

    /// The lines since they were last taken.
    pub fn take(&self) -> Vec<String> {
        self.lines.replace(Vec::new(self.alloc))
    }

    /// Asserts that these are the lines since they were last taken.
    pub fn are(&self, rt: &impl Abort, want: &[&str]) {
        let lines = self.take();
        assert_eq!(rt; lines.len(), want.len(), "{lines:?}");
        for (line, want) in lines.iter().zip(want) {
            assert_eq!(rt; line.as_str(), *want);
        }
    }

    /// Asserts that so many lines were noted since they were last taken, and that each begins with these words.
    pub fn begin(&self, rt: &impl Abort, count: usize, front: &str) {
        let lines = self.take();
        assert_eq!(rt; lines.len(), count, "{lines:?}");
        for line in lines.iter() {
            assert!(rt; line.starts_with(front), "{line}");
        }
    }
}
