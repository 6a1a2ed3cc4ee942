ghost use Rattle.std.specs.Prelude.{◌≡◌, ◌≤◌, ◌+◌, IfOk, IsTrue, OnOk, OnErr, option_map, true};
ghost use Rattle.std.specs.BTreeMap.{btree_map_len};
ghost use Rattle.std.specs.Coded.{coded_ℕ, coded_list};
ghost use Rattle.std.specs.FinMap as finite;
ghost use Rattle.name_rules.specs.Grammar.{change_of, is_name};
ghost use Rattle.name_rules.specs.Names.{NameMap, applied, changed, name_list};
ghost use Rattle.name_rules.specs.Rows.{map_of};
ghost use Rattle.name_service.specs.Changes.{is_set};
ghost use Rattle.name_service.specs.Stores.{IsStore, rows_of};

use crate::change::{Change, change_of};
use crate::listing::{mask_of, names_marked, points_of};
use crate::name::Name;
use crate::name_key::NameKey;
use fabric_terms::OutOfMemory;
use replica_core::Entry;
use ring_points::Interval;
use std::alloc::Global;
use std::collections::BTreeMap;
use std::marker::Model;
use std::mem;

/// The most names that a step frees of those that were let go.
pub const MAX_FREED_NAMES: usize = 500;

/// The names that a log's entries leave, each with its value. They stand in the order of their points, then of their
/// bytes; contracts see the map.
#[derive(Drop)]
pub struct Names {
    alloc: Global,
    rows: BTreeMap<NameKey, Vec<u8>>,
    /// Names that were let go and are not freed yet. Contracts do not see them.
    released: BTreeMap<NameKey, Vec<u8>>,
}

impl Model for Names {
    ghost Value = { NameMap };

    ghost coded = { finite.code (coded_list coded_ℕ) (coded_list coded_ℕ) };

    ghost view = { λ a. map_of (rows_of a.rows.entries) };

    ghost invariant = { λ a. IsStore a.rows.entries };
}

/// The same bytes again.
fn copy_of(alloc: Global, bytes: &[u8]) -> Result<Vec<u8>, OutOfMemory>
    ensures { IfOk result (λ copy. copy.items ≡ bytes.now) }
{
    Ok(bytes.to_vec(alloc)?)
}

/// Frees names of a map, the last ones first: at most `MAX_FREED_NAMES`.
fn free_some(released: &mut BTreeMap<NameKey, Vec<u8>>)
    ensures few { btree_map_len released.old ≤ btree_map_len released.new + MAX_FREED_NAMES }
{
    for _ in 0..MAX_FREED_NAMES {
        if released.pop_last().is_none() {
            return;
        }
    }
}

impl Names {
    /// No names. The map grows by this allocator.
    pub fn new(alloc: Global) -> Names
        ensures { result ≡ finite.empty }
    {
        Names {
            alloc,
            rows: BTreeMap::new(alloc),
            released: BTreeMap::new(alloc),
        }
    }

    /// What the name stands for, if it does.
    pub fn get(&self, name: &[u8]) -> Option<&[u8]>
        ensures { option_map (λ v. v.now) result ≡ finite.get self.now name.now }
    {
        let rows = &self.rows;
        let place = NameKey::read(name)?;
        let value = rows.get(&place)?;
        Some(value.as_slice())
    }

    /// The name stands for the value from now on. Where memory is short, nothing changes.
    fn set(&mut self, name: &[u8], value: &[u8]) -> Result<(), OutOfMemory>
        requires { is_name name.now ≡ true }
        ensures ok { OnOk result (self.new ≡ finite.insert self.old name.now value.now) }
        ensures err { OnErr result (self.new ≡ self.old) }
    {
        let value = copy_of(self.alloc, value)?;
        self.rows.insert(NameKey::of(name), value)?;
        Ok(())
    }

    /// The name stands for nothing from now on.
    fn delete(&mut self, name: &[u8])
        ensures { self.new ≡ finite.remove self.old name.now }
    {
        if let Some(place) = NameKey::read(name) {
            self.rows.remove(&place);
        }
    }

    /// Applies an entry. Where memory is short, nothing changes. Only an entry that sets a name takes memory.
    pub fn apply(&mut self, entry: &Entry) -> Result<(), OutOfMemory>
        ensures ok { OnOk result (self.new ≡ applied entry.now self.old) }
        ensures err { OnErr result (self.new ≡ self.old) }
        ensures memory { OnErr result (IsTrue (is_set (change_of entry.now.bytes))) }
    {
        self.apply_bytes(entry.bytes.as_slice())
    }

    /// `apply` of an entry with these bytes.
    pub fn apply_bytes(&mut self, bytes: &[u8]) -> Result<(), OutOfMemory>
        ensures ok { OnOk result (self.new ≡ changed (change_of bytes.now) self.old) }
        ensures err { OnErr result (self.new ≡ self.old) }
        ensures memory { OnErr result (IsTrue (is_set (change_of bytes.now))) }
    {
        match change_of(bytes) {
            None => Ok(()),
            Some(Change::Sets { name, value }) => self.set(name, value),
            Some(Change::Deletes { name }) => {
                self.delete(name);
                Ok(())
            }
        }
    }

    /// No name stands for anything from now on. Few names are freed at once. Many are let go, and freed later by
    /// `free_released`. Names that still wait then are freed at once: that needs steps that set many names, or that
    /// free none.
    pub fn clear(&mut self)
        ensures { self.new ≡ finite.empty }
    {
        if self.rows.len() <= MAX_FREED_NAMES {
            self.rows.clear();
        } else {
            let nothing = BTreeMap::new(self.alloc);
            self.released = mem::replace(&mut self.rows, nothing);
        }
    }

    /// Whether names that were let go are not freed yet.
    pub fn has_released(&self) -> bool {
        !self.released.is_empty()
    }

    /// Frees some of the names that were let go: at most `MAX_FREED_NAMES`. A step calls it, so that no step frees the
    /// names of a long log at once.
    pub fn free_released(&mut self)
        ensures { self.new ≡ self.old }
    {
        free_some(&mut self.released);
    }

    /// The first `MAX_LISTED_NAMES` names with a point in the range, in their order. It goes to the range's first
    /// point, and asks that many points from there on, in lanes: the points rise, so where not all of these are in
    /// the range, no row behind them is.
    pub fn select(&self, range: &Interval) -> Result<Vec<Name>, OutOfMemory>
        ensures { IfOk result (λ names. names.items ≡ name_list self.now range.now) }
    {
        let first = NameKey::first_at(range.lo);
        let points = points_of(self.rows.range(&first..));
        let mask = mask_of(points.as_slice(), range);
        names_marked(self.alloc, &mask, self.rows.range(&first..))
    }
}
