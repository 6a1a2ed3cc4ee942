ghost use Rattle.door_io.specs.Clients.{clients_told};

use crate::clients::Clients;
use crate::door::{Door, Said};
use crate::limits::MAX_ASKED;
use crate::log::ReportLog;

/// A door and a log as one. Each call is that of its device, and the other stays as it was.
#[derive(Drop)]
pub struct ClientDevices<D: Door, L: ReportLog> {
    pub door: D,
    pub log: L,
}

impl<D: Door, L: ReportLog> Clients for ClientDevices<D, L> {
    ghost told = { λ d. clients_told (D.asked d.door) (D.answered d.door) (D.dropped d.door) (L.logged d.log)
        (L.dropped d.log) };

    fn next(&mut self, into: &mut [u8; MAX_ASKED]) -> Said {
        self.door.next(into)
    }

    fn say(&mut self, client: u32, text: &[u8]) {
        self.door.answer(client, text);
    }

    fn close(&mut self, client: u32) {
        self.door.close(client);
    }

    fn log(&mut self, line: &[u8]) {
        self.log.log(line);
    }

    fn lose(&mut self) {
        self.log.lose();
    }
}
