ghost use Rattle.std.specs.Prelude.{IfOk};
ghost use Rattle.unit_desk.specs.UnitEffects.{IsClear};

use bounded_list::Bounded;
use fabric_terms::{OutOfMemory, Outbox, Record, Report};
use std::alloc::Global;

/// The most records of one row.
pub const MAX_ROW_RECORDS: usize = 4;

/// The most reports of one row.
pub const MAX_ROW_REPORTS: usize = 4;

/// What one row records, in its order.
pub type UnitRecords = Bounded<Record, MAX_ROW_RECORDS>;

/// What one row reports, in its order.
pub type UnitReports = Bounded<Report, MAX_ROW_REPORTS>;

/// What a row of partitions records, sends and reports.
#[derive(Drop)]
pub struct UnitEffects {
    pub records: UnitRecords,
    pub out: Outbox,
    pub told: UnitReports,
}

impl UnitEffects {
    /// No effects yet. It is an error where memory for the outbox is short.
    pub fn new(alloc: Global) -> Result<UnitEffects, OutOfMemory>
        ensures { IfOk result (λ d. IsClear d) }
    {
        Ok(UnitEffects {
            records: Bounded::new(),
            out: Outbox::new(alloc)?,
            told: Bounded::new(),
        })
    }
}
