use crate::door_clients::DoorClients;
use crate::parent_stream::ParentStream;
use door_io::Rest;

/// A rest before which it is written what was said to the clients of the door, and to the parent, if there is one. At
/// no other time is it: before a rest the records on which it rests are synced.
#[derive(Drop)]
pub struct WritingRest<'a, R: Rest> {
    rest: R,
    clients: &'a DoorClients<'a>,
    parent: Option<&'a ParentStream<'a>>,
}

impl<'a, R: Rest> WritingRest<'a, R> {
    /// The rest of a process with these clients, and this parent.
    pub fn new(
        rest: R,
        clients: &'a DoorClients<'a>,
        parent: Option<&'a ParentStream<'a>>,
    ) -> Self {
        WritingRest {
            rest,
            clients,
            parent,
        }
    }
}

impl<R: Rest> Rest for WritingRest<'_, R> {
    fn rest(&mut self, most: u64) {
        self.clients.write_out();
        if let Some(parent) = self.parent {
            parent.write_out();
        }
        self.rest.rest(most);
    }
}
