use door_io::ReportLog;
use door_lines::push_who_behind;
use fabric_terms::OutOfMemory;
use ring_points::Who;
use serve_edge::{LogOutput, StdoutLog};
use text_fields::push_bytes;

/// What the log says beside reports.
#[derive(Clone, Copy)]
pub struct Events<'a> {
    rt: &'a HostRuntime,
    output: &'a LogOutput<'a>,
}

impl<'a> Events<'a> {
    pub fn new(rt: &'a HostRuntime, output: &'a LogOutput<'a>) -> Self {
        Events { rt, output }
    }
}

impl Events<'_> {
    /// Says a line with its line feed.
    pub fn say(&self, line: &[u8]) {
        let mut log = StdoutLog::new(self.rt, self.output);
        log.log(line);
    }

    fn say_made(&self, made: Result<Vec<u8>, OutOfMemory>) {
        if let Ok(line) = made {
            self.say(&line);
        }
    }

    /// An instance begins.
    pub fn begin(&self, who: Who) {
        let made = self.begin_line(who);
        self.say_made(made);
    }

    fn begin_line(&self, who: Who) -> Result<Vec<u8>, OutOfMemory> {
        let mut text = Vec::new(self.rt.alloc());
        push_who_behind(&mut text, b"begin ", who)?;
        push_bytes(&mut text, b"\n")?;
        Ok(text)
    }

    /// All is open: whether frames are sealed, whether an instance has passed that was allowed to begin anew, and at
    /// which address others reach the actor.
    pub fn opened(&self, at: &str, sealed: bool, passed: bool) {
        if !sealed {
            self.say(b"unsealed\n");
        }
        if passed {
            self.say(b"again passed\n");
        }
        self.listening(at);
    }

    /// Frames are taken at this address.
    fn listening(&self, at: &str) {
        let made = self.listening_line(at);
        self.say_made(made);
    }

    fn listening_line(&self, at: &str) -> Result<Vec<u8>, OutOfMemory> {
        let mut text = Vec::new(self.rt.alloc());
        push_bytes(&mut text, b"listening ")?;
        push_bytes(&mut text, at.as_bytes())?;
        push_bytes(&mut text, b"\n")?;
        Ok(text)
    }

    /// Writes what waits, as far as the output takes it at once.
    pub fn finish(&self) {
        self.output.write_ready();
    }
}
