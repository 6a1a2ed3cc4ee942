ghost use Rattle.trace_audit.specs.Laws.{RecordingsAreRead, SafeRecordingsAreSafe, TracedSchedulesAreSafe};

/// Any run whose numbers, names and lists have lines is read back from its transcript: one group for each moment, with
/// its line, its clocks and its reports. And where the run is safe, `audit` of its transcript answers so.
pub fn recorded_runs_are_read_back()
    ensures read { RecordingsAreRead }
    ensures safe { SafeRecordingsAreSafe }
{}

/// What `trace` writes of a schedule that is good is read back as its run, and `audit` of it answers `safe` and the
/// number of the schedule's events, as long as the text keeps to the limits of a transcript.
pub fn traced_schedules_are_safe()
    ensures { TracedSchedulesAreSafe }
{}
