ghost use Rattle.std.specs.Prelude.{◌≡◌, ◌≤◌, ◌+◌, ◌==◌, [], length};

use crate::entry::Entry;
use std::alloc::Global;
use std::mem;

/// The most entries that a step frees of those that a replica let go.
pub const MAX_FREED_ENTRIES: usize = 500;

/// Entries that a replica let go, until they are freed. A step frees few of them, so that no step takes long.
///
/// There is room for two long lists, and none goes elsewhere as long as each step frees some and adds one entry at
/// most: while two lists are freed, no third one gets long.
#[derive(Drop)]
pub(crate) struct Released {
    alloc: Global,
    first: Vec<Entry>,
    /// It is empty where the first one is.
    second: Vec<Entry>,
}

impl Released {
    /// Nothing was let go.
    pub(crate) fn new(alloc: Global) -> Self
        ensures first { result.first.items ≡ [] }
        ensures second { result.second.items ≡ [] }
    {
        Released {
            alloc,
            first: Vec::new(alloc),
            second: Vec::new(alloc),
        }
    }

    pub(crate) fn is_empty(&self) -> bool
        ensures { result ≡ (length self.now.first.items == 0) }
    {
        self.first.is_empty()
    }

    /// Keeps entries until they are freed. A short list is freed at once, and so is a list whose place another one
    /// takes: that needs steps that let go of lists and free nothing.
    pub(crate) fn take_in(&mut self, entries: Vec<Entry>)
        ensures few { self.old.second.items ≡ [] → length self.old.first.items + length entries.items
            ≤ length self.new.first.items + length self.new.second.items + MAX_FREED_ENTRIES }
    {
        if entries.len() <= MAX_FREED_ENTRIES {
            return;
        }
        if self.first.is_empty() {
            self.first = entries;
        } else {
            self.second = entries;
        }
    }

    /// Frees some of the entries.
    pub(crate) fn free_some(&mut self)
        ensures few { length self.old.first.items + length self.old.second.items
            ≤ length self.new.first.items + length self.new.second.items + MAX_FREED_ENTRIES }
    {
        if self.first.is_empty() {
            return;
        }
        let rest = self.first.len().saturating_sub(MAX_FREED_ENTRIES);
        self.first.truncate(rest);
        if rest == 0 {
            let nothing = Vec::new(self.alloc);
            self.first = mem::replace(&mut self.second, nothing);
        }
    }
}
