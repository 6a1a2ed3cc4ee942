ghost use Rattle.text_fields.specs.Inverses.{IsField};
ghost use Rattle.fabric_terms.specs.Ranges.{IsName};
ghost use Rattle.line_format.specs.Commands.{CommandReadIsSpelled, SpelledCommandIsRead};
ghost use Rattle.line_format.specs.Lines.{ReadIsSpelled, SpelledIsRead};
ghost use Rattle.line_format.specs.Names.{name_at, EndsName, as_they_are};
ghost use Rattle.line_format.specs.Readers.{ReportReadIsSpelled, SpelledReportIsRead};

/// Each event has one spelling, and nothing else is read as an event.
pub fn one_spelling()
    ensures read { ReadIsSpelled }
    ensures spelled { SpelledIsRead }
{}

/// Each command has one spelling, and nothing else is read as a command.
pub fn one_command_spelling()
    ensures read { CommandReadIsSpelled }
    ensures spelled { SpelledCommandIsRead }
{}

/// Each head and report has one line, and nothing else is read as a report's line.
pub fn one_report_spelling()
    ensures read { ReportReadIsSpelled }
    ensures spelled { SpelledReportIsRead }
{}

/// A name is spelled by its bytes, and nothing else is read as that name.
pub fn names_are_their_bytes()
    ensures { IsField name_at IsName as_they_are EndsName }
{}
