ghost use Rattle.std.specs.Prelude.{◌≡◌, IfOk, true};
ghost use Rattle.edge_io.specs.Edge.{HasCauseOf};
ghost use Rattle.fabric_terms.specs.Sound.{IsSound};
ghost use Rattle.turn_plans.specs.Crews.{is_crew};
ghost use Rattle.turn_plans.specs.Plans.{Judges, config_for, plan_of};
ghost use Rattle.turn_plans.specs.Reading.{AreJudged, Defines, Reads};
ghost use Rattle.turn_rules.specs.Plans.{IsPlan};

use crate::actors::endpoints_of;
use crate::crew::{Crew, is_crew};
use crate::error::PlanError;
use crate::given::Given;
use crate::orders::take_lines;
use edge_io::Source;
use fabric_config::{ConfigError, need_endpoints, read_config};
use fabric_status::Refusal;
use fabric_terms::FabricConfig;
use source_lines::{LineReader, MAX_FIRST_LINE, NextLine};
use std::alloc::Global;
use turn_rules::Plan;
use world_rules::first_whole;

/// The configuration of line 1, where it says where each actor listens, and has whom the words name.
#[tactic(auto, unfolding(crate::specs::Plans::config_for))]
fn config_for(alloc: Global, crew: Crew, line: &[u8]) -> Result<FabricConfig, PlanError>
    ensures config { Judges (λ c. c) (config_for crew line.now) result }
    ensures sound { IfOk result IsSound }
    ensures crew { IfOk result (λ c. is_crew c crew ≡ true) }
{
    let config = match read_config(alloc, line) {
        Ok(config) => config,
        Err(ConfigError::OutOfMemory) => return Err(PlanError::OutOfMemory),
        Err(error) => return Err(PlanError::Refused(Refusal::BadConfig(error))),
    };
    if let Err(error) = need_endpoints(&config) {
        return Err(PlanError::Refused(Refusal::BadConfig(error)));
    }
    if !is_crew(&config, crew) {
        return Err(PlanError::Refused(Refusal::NoSuch(1)));
    }
    Ok(config)
}

/// The plan of a configuration and the lines behind it.
fn plan_of<S: Source>(
    alloc: Global,
    crew: Crew,
    turns: u64,
    config: FabricConfig,
    reader: &mut LineReader,
    source: &mut S,
) -> Result<Plan, PlanError>
    requires sound { IsSound config }
    requires crew { is_crew config crew ≡ true }
    ensures plan { Reads (λ p. p) (AreJudged (plan_of crew turns config) reader.old.waiting (S.left source.old))
        (S.left source.old) result (S.left source.new) }
    ensures runs { IfOk result IsPlan }
    ensures cause { HasCauseOf PlanError.SourceFailed (S.faults source.old) (S.faults source.new) result }
{
    let actors = endpoints_of(alloc, &config, crew)?;
    let given = Given {
        crew,
        config: &config,
        actors: actors.as_slice(),
        turns,
    };
    match take_lines(alloc, &given, reader, source) {
        Ok(orders) => {
            let whole = first_whole(&config);
            Ok(Plan::new(config, whole, actors, orders, turns))
        }
        Err(error) => Err(error),
    }
}

/// Reads the plan that a source defines for a crew and so many turns, line by line. Reading ends at the first line that
/// is refused: line 1 is absent, too long, no configuration, one without an address, or one without whom the words
/// name; or a later line is too long or one too many, is no command in its turn, or names who is not there.
/// `SourceFailed` comes only where the source's count of faults rose.
pub fn read_plan<S: Source>(
    alloc: Global,
    crew: Crew,
    turns: u64,
    source: &mut S,
) -> Result<Plan, PlanError>
    ensures plan { Reads (λ p. p) (Defines crew turns (S.left source.old)) (S.left source.old) result
        (S.left source.new) }
    ensures runs { IfOk result IsPlan }
    ensures cause { HasCauseOf PlanError.SourceFailed (S.faults source.old) (S.faults source.new) result }
{
    let mut reader = match LineReader::new(alloc) {
        Ok(reader) => reader,
        Err(_) => return Err(PlanError::OutOfMemory),
    };
    match reader.next(source, MAX_FIRST_LINE) {
        Err(_) => Err(PlanError::SourceFailed),
        Ok(NextLine::End) => Err(PlanError::Refused(Refusal::BadConfig(ConfigError::NotJson))),
        Ok(NextLine::TooLong) => Err(PlanError::Refused(Refusal::TooLarge(1))),
        Ok(NextLine::Line) => match config_for(alloc, crew, reader.line()) {
            Ok(config) => plan_of(alloc, crew, turns, config, &mut reader, source),
            Err(error) => Err(error),
        },
    }
}
