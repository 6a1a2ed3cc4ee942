ghost use Rattle.std.specs.Prelude.{◌≡◌, ◌⊎◌, ◌+◌, ◌∷◌, ◌++◌, [], List, IfOk, OnOk, length, option_map, take};
ghost use Rattle.std.specs.FinMap.{get};
ghost use Rattle.name_rules.specs.Names.{name_list, names_of};
ghost use Rattle.replica_core.specs.declared.entry.Entry.{Entry as LogEntry};
ghost use Rattle.unit_replica.specs.Names.{AreOf, StayOrEnd};

use fabric_terms::{NameText, NameTexts, NameValue, OutOfMemory};
use name_service::{Name, Names};
use replica_core::Entry;
use ring_points::Interval;
use std::alloc::Global;

/// The most entries that one step applies to names that are kept along.
const MAX_NAMED_ENTRIES: usize = 500;

/// The names that the first `count` entries of a list define.
#[derive(Drop)]
pub(crate) struct LogNames {
    pub(crate) names: Names,
    pub(crate) count: usize,
}

/// A copy of the value, if there is one.
fn value_of(alloc: Global, value: Option<&[u8]>) -> Result<Option<NameValue>, OutOfMemory>
    ensures { IfOk result (λ copy. copy ≡ option_map (λ v. v.now) value.entry) }
{
    match value {
        None => Ok(None),
        Some(bytes) => Ok(Some(NameValue::new(bytes.to_vec(alloc)?))),
    }
}

/// The same names, as reports have them.
fn texts_of(alloc: Global, names: &[Name]) -> Result<NameTexts, OutOfMemory>
    ensures { IfOk result (λ texts. texts ≡ names.now) }
{
    let mut texts = Vec::new(alloc);
    for name in names {
        texts.push(NameText::from_slice(name.as_slice()))?;
    }
    Ok(NameTexts::new(texts))
}

impl LogNames {
    /// The names of no entries.
    pub(crate) fn new(alloc: Global) -> Self
        ensures none { result.count ≡ 0 }
        ensures names { result.names ≡ names_of [] }
    {
        LogNames {
            names: Names::new(alloc),
            count: 0,
        }
    }

    /// The names of no entries again.
    pub(crate) fn forget(&mut self)
        ensures none { self.new.count ≡ 0 }
        ensures names { self.new.names ≡ names_of [] }
    {
        self.names.clear();
        self.count = 0;
    }

    /// Whether forgotten names are not freed yet.
    pub(crate) fn has_released(&self) -> bool {
        self.names.has_released()
    }

    /// Frees some of the names that were forgotten.
    pub(crate) fn free_released(&mut self)
        ensures { self.new ≡ self.old }
    {
        self.names.free_released();
    }

    /// Goes on with a list that stayed or ended, and has so many entries now.
    pub(crate) fn follow(&mut self, most: usize)
        ensures { (old new : List LogEntry) → most ≡ length new → StayOrEnd old new
            → AreOf old self.old.count self.old.names → AreOf new self.new.count self.new.names }
    {
        if most < self.count {
            self.forget();
        }
    }

    /// Applies entry `lsn`, if it is the next one and memory reaches.
    fn add(&mut self, lsn: u32, bytes: &[u8])
        ensures { (old : List LogEntry) (entry : LogEntry) → entry.bytes ≡ bytes.now → lsn ≡ length old + 1
            → AreOf old self.old.count self.old.names → AreOf (old ++ entry ∷ []) self.new.count self.new.names }
    {
        if self.count.saturating_add(1) != lsn as usize {
            return;
        }
        if let Ok(()) = self.names.apply_bytes(bytes) {
            self.count = lsn as usize;
        }
    }

    /// Goes on with a list to which entry `lsn` was added. Entry 1 begins a list.
    pub(crate) fn take_in(&mut self, lsn: u32, bytes: &[u8])
        ensures { (old : List LogEntry) (entry : LogEntry) → entry.bytes ≡ bytes.now → lsn ≡ length old + 1
            → (lsn ≡ 1) ⊎ AreOf old self.old.count self.old.names
            → AreOf (old ++ entry ∷ []) self.new.count self.new.names }
    {
        if lsn == 1 {
            self.forget();
            self.add(lsn, bytes);
        } else {
            self.add(lsn, bytes);
        }
    }

    /// Applies the missing entries up to entry `count`, or up to the end of the list. If memory is short, the names are
    /// those of fewer entries. Names of more entries begin anew.
    #[tactic(auto, using(crate::proofs::Naming::names_next, crate::proofs::Naming::named_least))]
    fn go_on(&mut self, log: &[Entry], count: usize) -> Result<(), OutOfMemory>
        requires { AreOf log.now self.old.count self.old.names }
        ensures of { AreOf log.now self.new.count self.new.names }
        ensures names { OnOk result (self.new.names ≡ names_of (take count log.now)) }
    {
        if count < self.count {
            self.forget();
        }
        let end = count.min(log.len());
        for i in self.count..end {
            self.names.apply(&log[i])?;
            self.count = i + 1;
        }
        Ok(())
    }

    /// Applies the entries of a whole list, as far as memory reaches.
    pub(crate) fn go_through(&mut self, log: &[Entry])
        requires { AreOf log.now self.old.count self.old.names }
        ensures { AreOf log.now self.new.count self.new.names }
    {
        match self.go_on(log, log.len()) {
            Ok(()) | Err(OutOfMemory) => {}
        }
    }

    /// Applies missing entries up to entry `count`, as far as memory reaches, and no more than `MAX_NAMED_ENTRIES`.
    pub(crate) fn go_along(&mut self, log: &[Entry], count: usize)
        requires { AreOf log.now self.old.count self.old.names }
        ensures { AreOf log.now self.new.count self.new.names }
    {
        if count <= self.count {
            return;
        }
        let end = count.min(self.count.saturating_add(MAX_NAMED_ENTRIES));
        match self.go_on(log, end) {
            Ok(()) | Err(OutOfMemory) => {}
        }
    }

    /// The value of the name after the first `count` entries of the log.
    pub(crate) fn resolve(
        &mut self,
        alloc: Global,
        log: &[Entry],
        count: usize,
        name: &[u8],
    ) -> Result<Option<NameValue>, OutOfMemory>
        requires { AreOf log.now self.old.count self.old.names }
        ensures of { AreOf log.now self.new.count self.new.names }
        ensures found { IfOk result (λ value. value ≡ get (names_of (take count log.now)) name.now) }
    {
        self.go_on(log, count)?;
        value_of(alloc, self.names.get(name))
    }

    /// The first names with a point in the range, after the first `count` entries of the log.
    pub(crate) fn list(
        &mut self,
        alloc: Global,
        log: &[Entry],
        count: usize,
        range: &Interval,
    ) -> Result<NameTexts, OutOfMemory>
        requires { AreOf log.now self.old.count self.old.names }
        ensures of { AreOf log.now self.new.count self.new.names }
        ensures listed { IfOk result (λ names. names ≡ name_list (names_of (take count log.now)) range.now) }
    {
        self.go_on(log, count)?;
        let names = self.names.select(range)?;
        texts_of(alloc, names.as_slice())
    }
}
