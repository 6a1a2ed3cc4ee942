ghost use Rattle.std.specs.Prelude.{◌≡◌, ◌<◌, ◌==◌, length, max, nat_lt, if◌then◌else◌, position};
ghost use Rattle.edge_io.specs.Plan.{counted};
ghost use Rattle.status_page.specs.Counters.{counted_at, counted_kind, fresh_counters, place_of_asker};
ghost use Rattle.status_page.specs.Counters.{place_of_fault, place_of_junk};

use crate::kinds::{KINDS, kind_place};
use door_lines::Fault;

/// Who asked for a command.
#[derive(Clone, Copy, Debug, PartialEq, Eq)]
pub enum Asker {
    Door,
    Parent,
    Policy,
}

/// Why a datagram is no frame.
#[derive(Clone, Copy, Debug, PartialEq, Eq)]
pub enum Junk {
    /// Its bytes are no frame.
    Bytes,
    /// It is not sealed right.
    Seal,
}

/// What a process counts from its start. A count ends at the greatest number of 64 bits.
#[derive(Drop)]
pub struct Counters {
    /// By kind, in the order of the kinds.
    pub sent: [u64; KINDS],
    pub received: [u64; KINDS],
    /// Datagrams that are no frames, by why.
    pub junk: [u64; 2],
    /// Records that were appended.
    pub records: u64,
    /// Claims that were granted in a round above 1.
    pub split_grants: u64,
    /// Commands and refusals, by who asked.
    pub commands: [u64; 3],
    pub refusals: [u64; 3],
    /// Lines of clients that were refused, by why.
    pub lines: [u64; 4],
    pub turns: u64,
    pub firings: u64,
    pub slow_turns: u64,
    /// The longest turn, in ticks.
    pub longest_turn: u64,
    /// Clients that did not read, or were past a limit.
    pub clients_dropped: u64,
    pub log_lines_dropped: u64,
}

/// One more at this place; a place that is not there changes nothing.
fn count_at(counts: &mut [u64], place: usize)
    ensures { counts.new ≡ counted_at counts.old place }
{
    if place < counts.len() {
        counts[place] = counts[place].saturating_add(1);
    }
}

impl Counters {
    /// Nothing was counted.
    pub fn new() -> Counters
        ensures { result ≡ fresh_counters }
    {
        Counters {
            sent: [0; KINDS],
            received: [0; KINDS],
            junk: [0; 2],
            records: 0,
            split_grants: 0,
            commands: [0; 3],
            refusals: [0; 3],
            lines: [0; 4],
            turns: 0,
            firings: 0,
            slow_turns: 0,
            longest_turn: 0,
            clients_dropped: 0,
            log_lines_dropped: 0,
        }
    }

    /// A frame of this kind was sent. Another kind is not counted.
    pub fn count_sent(&mut self, kind: u8)
        ensures { self.new ≡ record self.old { sent = counted_kind self.old.sent kind } }
    {
        if let Some(place) = kind_place(kind) {
            count_at(&mut self.sent, place);
        }
    }

    /// A frame of this kind was received. Another kind is not counted.
    pub fn count_received(&mut self, kind: u8)
        ensures { self.new ≡ record self.old { received = counted_kind self.old.received kind } }
    {
        if let Some(place) = kind_place(kind) {
            count_at(&mut self.received, place);
        }
    }

    /// A datagram was no frame.
    pub fn count_junk(&mut self, why: Junk)
        ensures { self.new ≡ record self.old { junk = counted_at self.old.junk (place_of_junk why) } }
    {
        count_at(&mut self.junk, why as usize);
    }

    /// A record was appended.
    pub fn count_record(&mut self)
        ensures { self.new ≡ record self.old { records = counted self.old.records } }
    {
        self.records = self.records.saturating_add(1);
    }

    /// A claim of a round above 1 was granted.
    pub fn count_split_grant(&mut self)
        ensures { self.new ≡ record self.old { split_grants = counted self.old.split_grants } }
    {
        self.split_grants = self.split_grants.saturating_add(1);
    }

    /// A command was given.
    pub fn count_command(&mut self, asker: Asker)
        ensures { self.new ≡ record self.old { commands = counted_at self.old.commands (place_of_asker asker) } }
    {
        count_at(&mut self.commands, asker as usize);
    }

    /// A report refused a command.
    pub fn count_refusal(&mut self, asker: Asker)
        ensures { self.new ≡ record self.old { refusals = counted_at self.old.refusals (place_of_asker asker) } }
    {
        count_at(&mut self.refusals, asker as usize);
    }

    /// A line of a client was refused.
    pub fn count_line_refused(&mut self, fault: Fault)
        ensures { self.new ≡ record self.old { lines = counted_at self.old.lines (place_of_fault fault) } }
    {
        count_at(&mut self.lines, fault as usize);
    }

    /// A turn of so many ticks was taken. It is slow if it took more than the grain.
    pub fn count_turn(&mut self, ticks: u64, grain: u64)
        ensures { self.new ≡ record self.old {
          turns = counted self.old.turns;
          slow_turns = if nat_lt grain ticks then counted self.old.slow_turns else self.old.slow_turns;
          longest_turn = max self.old.longest_turn ticks;
        } }
    {
        self.turns = self.turns.saturating_add(1);
        if ticks > grain {
            self.slow_turns = self.slow_turns.saturating_add(1);
        }
        self.longest_turn = self.longest_turn.max(ticks);
    }

    /// A node fired.
    pub fn count_firing(&mut self)
        ensures { self.new ≡ record self.old { firings = counted self.old.firings } }
    {
        self.firings = self.firings.saturating_add(1);
    }

    /// A client was dropped.
    pub fn count_client_dropped(&mut self)
        ensures { self.new ≡ record self.old { clients_dropped = counted self.old.clients_dropped } }
    {
        self.clients_dropped = self.clients_dropped.saturating_add(1);
    }

    /// A line of the log was dropped.
    pub fn count_log_line_dropped(&mut self)
        ensures { self.new ≡ record self.old { log_lines_dropped = counted self.old.log_lines_dropped } }
    {
        self.log_lines_dropped = self.log_lines_dropped.saturating_add(1);
    }
}
