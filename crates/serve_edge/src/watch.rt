/// What the process waits for at a seat of the board.
#[derive(Clone, Copy)]
pub struct Watch {
    /// The descriptor; negative where none is watched.
    pub descriptor: i32,
    /// Whether bytes or a connection may be taken from it.
    pub takes: bool,
    /// Whether bytes may be given to it.
    pub gives: bool,
    /// The reading at which something is due here, whatever comes.
    pub due: u64,
}

impl Watch {
    /// Nothing is awaited.
    pub fn none() -> Watch {
        Watch {
            descriptor: -1,
            takes: false,
            gives: false,
            due: u64::MAX,
        }
    }

    /// What comes at the descriptor is awaited.
    pub fn taking(descriptor: i32) -> Watch {
        Watch {
            descriptor,
            takes: true,
            gives: false,
            due: u64::MAX,
        }
    }

    /// A reading is awaited.
    pub fn until(due: u64) -> Watch {
        Watch {
            descriptor: -1,
            takes: false,
            gives: false,
            due,
        }
    }

    /// Whether the descriptor is watched.
    pub fn is_watched(&self) -> bool {
        self.descriptor >= 0 && (self.takes || self.gives)
    }
}
