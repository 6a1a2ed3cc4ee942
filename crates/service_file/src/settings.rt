ghost use Rattle.std.specs.Prelude.{◌≡◌};

use std::marker::Model;

/// The nodes that the policy joins, in the order of the line. Contracts see them as their list.
#[derive(Drop)]
pub struct Joins {
    nodes: Vec<u16>,
}

impl Model for Joins {
    ghost use Rattle.std.specs.Prelude.{List, ℕ};

    ghost Value = { List ℕ };

    ghost view = { λ j. j.nodes.items };
}

impl Joins {
    pub fn new(nodes: Vec<u16>) -> Self
        ensures { result ≡ nodes.items }
    {
        Joins { nodes }
    }

    pub fn as_slice(&self) -> &[u16]
        ensures { result.now ≡ self.now }
    {
        self.nodes.as_slice()
    }
}

/// A partition that the service keeps whole, and how many members it is to have.
#[derive(Clone, Copy, Debug, PartialEq, Eq)]
pub struct Declared {
    pub partition: u16,
    pub replicas: u8,
}

/// The declared partitions, in the order of the line. Contracts see them as their list.
#[derive(Drop)]
pub struct DeclaredList {
    entries: Vec<Declared>,
}

impl Model for DeclaredList {
    ghost use Rattle.std.specs.Prelude.{List};
    ghost use Rattle.service_file.specs.declared.settings.Declared.{Declared};

    ghost Value = { List Declared };

    ghost view = { λ d. d.entries.items };
}

impl DeclaredList {
    pub fn new(entries: Vec<Declared>) -> Self
        ensures { result ≡ entries.items }
    {
        DeclaredList { entries }
    }

    pub fn as_slice(&self) -> &[Declared]
        ensures { result.now ≡ self.now }
    {
        self.entries.as_slice()
    }
}

/// Which reports the log has.
#[derive(Clone, Copy, Debug, PartialEq, Eq)]
pub enum LineChoice {
    /// All but repeated ranges, and finds that no client asked for.
    SomeLines,
    /// Every report, so a run can be audited.
    AllLines,
}

/// An instance that begins with the whole ring, as instance 1 of the first node does.
#[derive(Clone, Copy, Debug, PartialEq, Eq)]
pub struct Again {
    pub node: u16,
    pub instance: u32,
}

/// What line 2 of FILE says.
#[derive(Drop)]
pub struct ServiceSettings {
    pub join: Joins,
    pub partitions: DeclaredList,
    /// In ticks.
    pub heal_after: u64,
    pub lines: LineChoice,
    pub again: Option<Again>,
}
