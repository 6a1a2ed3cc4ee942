ghost use Rattle.std.specs.Prelude.{◌≡◌, [], All, IfOk, OnErr, OnOk, ℕ, List, ◌∷◌, ◌+◌};
ghost use Rattle.edge_io.specs.Edge.{HasCauseOf};
ghost use Rattle.fabric_terms.specs.Ranges.{FitsCommand};
ghost use Rattle.turn_plans.specs.PlanVerdicts.{IsOrdered, line_verdict};
ghost use Rattle.turn_plans.specs.Plans.{judge_from};
ghost use Rattle.turn_plans.specs.Reading.{AreJudged, AreTaken, Reads, TakesLine};
ghost use Rattle.turn_rules.specs.Plans.{Rises};

use crate::error::PlanError;
use crate::given::Given;
use crate::plan_verdict::{PlanVerdict, line_verdict};
use edge_io::Source;
use fabric_status::Refusal;
use fabric_terms::OutOfMemory;
use source_lines::{LineReader, MAX_LINE, NextLine};
use std::alloc::Global;
use turn_rules::Orders;

/// Takes the line of this number behind the orders of the lines before. Gives how it is refused, if it is. No turn is
/// below `least`. It is an error where memory is short for an order, and then nothing is taken.
fn take_line(
    given: &Given,
    number: u64,
    line: &[u8],
    least: &mut u64,
    orders: &mut Orders,
) -> Result<Option<Refusal>, OutOfMemory>
    requires { AreTaken orders.old least.old }
    ensures judged { (ls : List (List ℕ)) →
        IfOk result (λ refused. TakesLine number
        (judge_from given.now.crew given.now.config.now given.now.actors.now given.now.turns orders.old least.old number
        (line.now ∷ ls))
        (judge_from given.now.crew given.now.config.now given.now.actors.now given.now.turns orders.new least.new
        (number + 1) ls) refused) }
    ensures taken { OnOk result (AreTaken orders.new least.new) }
    ensures err { OnErr result ((orders.new ≡ orders.old) × (least.new ≡ least.old)) }
    ensures memory { OnErr result (IsOrdered (line_verdict given.now.crew given.now.config.now given.now.actors.now
        given.now.turns least.old number line.now)) }
{
    match line_verdict(given, *least, number, line) {
        PlanVerdict::Ignored => Ok(None),
        PlanVerdict::Ordered(order, words) => match orders.push(&order, words) {
            Ok(()) => {
                *least = order.turn;
                Ok(None)
            }
            Err(refused) => Err(refused),
        },
        PlanVerdict::Refused(refusal) => Ok(Some(refusal)),
    }
}

/// The orders of the lines from line 2 on. Reading ends at the first line that is refused.
pub(crate) fn take_lines<S: Source>(
    alloc: Global,
    given: &Given,
    reader: &mut LineReader,
    source: &mut S,
) -> Result<Orders, PlanError>
    ensures read { Reads (λ orders. orders)
        (AreJudged (judge_from given.now.crew given.now.config.now given.now.actors.now given.now.turns [] 1 2)
        reader.old.waiting (S.left source.old)) (S.left source.old) result (S.left source.new) }
    ensures fits { IfOk result (All (λ o. FitsCommand o.command)) }
    ensures rising { IfOk result (Rises 1) }
    ensures cause { HasCauseOf PlanError.SourceFailed (S.faults source.old) (S.faults source.new) result }
{
    let mut orders = Orders::new(alloc);
    let mut least: u64 = 1;
    let mut number: u64 = 2;
    'lines: loop {
        match reader.next(source, MAX_LINE) {
            Err(_) => return Err(PlanError::SourceFailed),
            Ok(NextLine::End) => return Ok(orders),
            Ok(NextLine::TooLong) => return Err(PlanError::Refused(Refusal::TooLarge(number))),
            Ok(NextLine::Line) => {
                let line = reader.line();
                match take_line(given, number, line, &mut least, &mut orders) {
                    Ok(None) => number += 1,
                    Ok(Some(refusal)) => return Err(PlanError::Refused(refusal)),
                    Err(_) => return Err(PlanError::OutOfMemory),
                }
            }
        }
    }
}
