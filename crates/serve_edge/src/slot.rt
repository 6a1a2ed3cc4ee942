use crate::places::later_number;

/// A place of a client: the client that is there, if one is, and the number of it or of the last one.
#[derive(Drop)]
pub struct Slot<T> {
    pub number: u32,
    pub held: Option<T>,
}

impl<T: Drop> Slot<T> {
    /// Nobody was at this place.
    pub fn new(place: u32) -> Slot<T> {
        Slot {
            number: place,
            held: None,
        }
    }

    /// Whether nobody is there.
    pub fn is_free(&self) -> bool {
        self.held.is_none()
    }

    /// The next client comes to the place.
    pub fn begin(&mut self, held: T) {
        self.number = later_number(self.number);
        self.held = Some(held);
    }
}
