ghost use Rattle.std.specs.Prelude.{◌≡◌, ◌≤◌, ◌↔◌};
ghost use Rattle.std.specs.IoError.{error_kind};
ghost use Rattle.edge_io.specs.Edge.{HasRisen};
ghost use Rattle.edge_io.specs.Plan.{counted};

use edge_io::EdgeRefusal;
use std::io;
use std::io::ErrorKind;
use std::marker::Model;

/// How often a device has failed. The count ends at the greatest number of its type.
#[derive(Drop)]
pub struct Failures {
    count: u64,
}

impl Model for Failures {
    ghost use Rattle.std.specs.Prelude.{ℕ};

    ghost Value = { ℕ };

    ghost view = { λ a. a.count };
}

impl Failures {
    /// No failure yet.
    pub fn none() -> Self
        ensures { result ≡ 0 }
    {
        Failures { count: 0 }
    }

    /// The device has failed once more.
    pub fn add(&mut self)
        ensures counted { self.new ≡ counted self.old }
        ensures later { self.old ≤ self.new }
        ensures risen { HasRisen self.old self.new }
    {
        self.count = self.count.saturating_add(1);
    }

    /// What a refused call answers. Want of memory is no failure of the device, and anything else is.
    pub fn refusal(&mut self, error: io::Error) -> EdgeRefusal
        ensures memory { result ≡ EdgeRefusal.OutOfMemory ↔ error_kind error ≡ ErrorKind.OutOfMemory }
        ensures counted { result ≡ EdgeRefusal.Failed → self.new ≡ counted self.old }
        ensures same { result ≡ EdgeRefusal.OutOfMemory → self.new ≡ self.old }
        ensures later { self.old ≤ self.new }
        ensures risen { result ≡ EdgeRefusal.Failed → HasRisen self.old self.new }
    {
        if error.kind() == ErrorKind::OutOfMemory {
            return EdgeRefusal::OutOfMemory;
        }
        self.add();
        EdgeRefusal::Failed
    }
}
