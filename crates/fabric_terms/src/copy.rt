ghost use Rattle.std.specs.Prelude.{◌≡◌};

use crate::command::Command;

/// The same command again.
pub fn copy_of(command: &Command) -> Command
    ensures { result ≡ command.now }
{
    match command {
        Command::Link(node) => Command::Link(*node),
        Command::LinkFor(node, length) => Command::LinkFor(*node, *length),
        Command::Part(node) => Command::Part(*node),
        Command::GiveNear(node) => Command::GiveNear(*node),
        Command::GiveAll(node) => Command::GiveAll(*node),
        Command::Join(node) => Command::Join(*node),
        Command::Find(point) => Command::Find(*point),
        Command::Create(partition, count) => Command::Create(*partition, *count),
        Command::Swap(partition, node) => Command::Swap(*partition, *node),
        Command::Heal(partition, count) => Command::Heal(*partition, *count),
        Command::Lose(partition, node) => Command::Lose(*partition, *node),
        Command::Write(partition, text) => Command::Write(*partition, text.copy()),
        Command::Units(part) => Command::Units(*part),
        Command::Resolve(partition, name) => Command::Resolve(*partition, name.copy()),
        Command::Names(partition, part) => Command::Names(*partition, *part),
    }
}
