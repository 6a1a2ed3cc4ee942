use crate::notices::Notices;
use crate::page::PageOf;
use crate::tally::Tally;
use door_io::{MAX_HEAD, MAX_PAGE_CLIENTS, PageDoor, ReportLog, Rest};
use edge_io::Clock;
use serve_turns::{Board, Handover, Shown};
use status_page::request_of;
use std::alloc::Global;

/// What the page and the log say that does not change while the process runs.
#[derive(Drop)]
pub struct BoardFacts {
    /// The number of the arbitrator; 0 of a node.
    pub arbiter: u8,
    pub checksum: [u8; 32],
    pub sealed: bool,
    /// The declared partitions.
    pub declared: Vec<u16>,
    /// The lease of the configuration, in ticks.
    pub lease: u64,
    /// The grain of the configuration, in ticks: a turn that takes longer is slow.
    pub grain: u64,
}

/// The devices of a board: where the page is asked for, if there is a page, what passes the time, a clock that takes
/// the time of turns, and the log.
#[derive(Drop)]
pub struct BoardDevices<G: PageDoor, R: Rest, C: Clock, L: ReportLog> {
    pub page: Option<G>,
    pub rest: R,
    pub clock: C,
    pub log: L,
}

/// The board of a served process: before each rest it says what the log is to have of the turn, and answers the page,
/// if there is one; then it rests.
#[derive(Drop)]
pub struct StatusBoard<'a, G: PageDoor, R: Rest, C: Clock, L: ReportLog> {
    alloc: Global,
    facts: &'a BoardFacts,
    tally: &'a Tally,
    devices: BoardDevices<G, R, C, L>,
    notices: Notices,
    /// The reading at which the last rest ended.
    woke: Option<u64>,
}

impl<'a, G: PageDoor, R: Rest, C: Clock, L: ReportLog> StatusBoard<'a, G, R, C, L> {
    /// A board over these devices.
    pub fn new(
        alloc: Global,
        facts: &'a BoardFacts,
        tally: &'a Tally,
        devices: BoardDevices<G, R, C, L>,
    ) -> Self {
        StatusBoard {
            alloc,
            facts,
            tally,
            devices,
            notices: Notices::new(alloc),
            woke: None,
        }
    }
}

/// Answers the clients of the page whose heads have come.
fn answer_clients<G: PageDoor>(door: &mut G, page: &PageOf<'_>) {
    let mut head = [0; MAX_HEAD];
    for _ in 0..MAX_PAGE_CLIENTS {
        let Some((client, count)) = door.next(&mut head) else {
            return;
        };
        match page.answer(request_of(&head[..count])) {
            Ok(None) => {}
            Ok(Some(text)) => door.answer(client, &text),
            Err(_) => door.answer(client, b""),
        }
    }
}

impl<G: PageDoor, R: Rest, C: Clock, L: ReportLog> StatusBoard<'_, G, R, C, L> {
    /// A turn has ended.
    fn end_turn(&mut self) {
        let now = self.devices.clock.now();
        let Some(woke) = self.woke else {
            return;
        };
        let ticks = now.saturating_sub(woke);
        let grain = self.facts.grain;
        self.tally
            .count(|counters| counters.count_turn(ticks, grain));
        if ticks > grain {
            self.notices.slow(&mut self.devices.log, ticks, now);
        }
    }

    /// What is seen of the process is said and shown.
    fn show(&mut self, shown: &Shown<'_>) {
        let facts = self.facts;
        self.notices
            .look(&mut self.devices.log, &facts.declared, facts.lease, shown);
        if let Some(door) = &mut self.devices.page {
            let page = PageOf {
                alloc: self.alloc,
                facts,
                tally: self.tally,
                shown,
            };
            answer_clients(door, &page);
        }
    }
}

impl<G: PageDoor, R: Rest, C: Clock, L: ReportLog> Board for StatusBoard<'_, G, R, C, L> {
    fn rest<O: Handover>(&mut self, _outside: &O, most: u64, shown: Option<&Shown<'_>>) {
        self.end_turn();
        self.notices.tell(&mut self.devices.log, self.tally);
        if let Some(shown) = shown {
            self.show(shown);
        }
        self.devices.rest.rest(most);
        self.woke = Some(self.devices.clock.now());
    }
}
