ghost use Rattle.std.specs.Prelude.{OnOk};
ghost use Rattle.fabric_terms.specs.declared.config.FabricConfig.{FabricConfig as Configuration};
ghost use Rattle.ring_world.specs.Answers.{StandsFor};
ghost use Rattle.world_rules.specs.Runs.{History};
ghost use Rattle.write_safety.specs.Fed.{FedBy, FedByAll, MayFeed};
ghost use Rattle.schedule_writes.specs.Feeding.{MayFeedAll, running_logs};

use fabric_terms::{OutOfMemory, Report};
use ring_points::Epoch;
use ring_world::{Acted, World};
use write_safety::WriteBook;

/// Feeds the book with a node's report that the first entries of a partition, so many, are committed.
fn feed_commit(
    book: &mut WriteBook,
    world: &World,
    node: u16,
    partition: u16,
    epoch: Epoch,
    last: u32,
) -> Result<(), OutOfMemory>
    ensures { (c : Configuration) (h : History) → StandsFor world.now c h → MayFeed (running_logs c h node) (Report.Committed partition epoch last) book.old
        → OnOk result (FedBy (running_logs c h node) (Report.Committed partition epoch last) book.old book.new) }
{
    match world.replica(node, partition) {
        None => Ok(()),
        Some(replica) => book.offer(partition, epoch, last, replica.log()),
    }
}

/// Feeds the book with a report of a node.
fn feed_report(
    book: &mut WriteBook,
    world: &World,
    node: u16,
    report: &Report,
) -> Result<(), OutOfMemory>
    ensures { (c : Configuration) (h : History) → StandsFor world.now c h → MayFeed (running_logs c h node) report.now book.old
        → OnOk result (FedBy (running_logs c h node) report.now book.old book.new) }
{
    match report {
        Report::Committed(partition, epoch, last) => {
            feed_commit(book, world, node, *partition, *epoch, *last)
        }
        _ => Ok(()),
    }
}

/// Feeds the book with each report of what an actor did in the last event of the world.
pub fn feed(book: &mut WriteBook, world: &World, acted: &Acted) -> Result<(), OutOfMemory>
    ensures { (c : Configuration) (h : History) → StandsFor world.now c h → MayFeedAll (running_logs c h acted.now.who.actor) acted.now.reports book.old
        → OnOk result (FedByAll (running_logs c h acted.now.who.actor) acted.now.reports book.old book.new) }
{
    for report in acted.reports.as_slice() {
        feed_report(book, world, acted.who.actor, report)?;
    }
    Ok(())
}
