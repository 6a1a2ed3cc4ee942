use parent_hold::ParentLines;
use serve_edge::ParentStream;
use serve_top::Tally;

/// The stream of the parent, as the devices see it. The frames that wait for the parent are counted.
#[derive(Drop)]
pub struct HeardParent<'a> {
    stream: &'a ParentStream<'a>,
    tally: &'a Tally,
}

impl<'a> HeardParent<'a> {
    pub fn new(stream: &'a ParentStream<'a>, tally: &'a Tally) -> Self {
        HeardParent { stream, tally }
    }
}

impl ParentLines for HeardParent<'_> {
    ghost use Rattle.std.specs.Prelude.{None, true};

    ghost said = { λ p. None };

    // As the stream that it has, it does not tell whether the parent is silent: it may be at any moment.
    ghost silent = { λ p. true };

    fn gather(&mut self) {
        self.stream.gather();
    }

    fn say(&mut self, text: &[u8]) {
        self.stream.say(text);
    }

    fn silence(&mut self) {
        self.stream.silence();
    }

    fn note_held(&mut self, frames: usize) {
        self.tally.set_held_frames(frames as u64);
    }
}
