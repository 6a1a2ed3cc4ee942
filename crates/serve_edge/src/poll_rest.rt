use crate::board::PollBoard;
use crate::log_output::LogOutput;
use crate::seats::OUTPUT;
use crate::waits::rest_ticks;
use door_io::Rest;
use edge_io::Clock;
use fabric_edge::{BootClock, MonoClock};

/// The rest of a served process: one call of the system waits for all that the devices await, and for the first reading
/// at which something is due. What waits for the log is written as its output takes it, and at no other time.
#[derive(Drop)]
pub struct PollRest<'a, R: BootClock> {
    board: &'a PollBoard,
    output: &'a LogOutput<'a>,
    clock: MonoClock<'a, R>,
}

impl<'a, R: BootClock> PollRest<'a, R> {
    /// A rest over what is awaited on this board, whose log goes to this output.
    pub fn new(rt: &'a R, board: &'a PollBoard, output: &'a LogOutput<'a>) -> Self {
        PollRest {
            board,
            output,
            clock: MonoClock::new(rt),
        }
    }
}

impl<R: BootClock> Rest for PollRest<'_, R> {
    fn rest(&mut self, most: u64) {
        self.output.watch();
        let ticks = rest_ticks(most, self.board.due(), self.clock.now());
        if self.board.poll(ticks, OUTPUT) {
            self.output.write_ready();
        }
        self.board.set_now(self.clock.now());
    }
}
