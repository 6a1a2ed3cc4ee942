use fabric_terms::{Body, Command};
use ring_node::Input;
use status_page::Asker;
use std::alloc::Global;

/// Who has commanded the last reconfiguration of each partition. Where memory is short, it is not kept.
#[derive(Drop)]
pub(crate) struct Commanders {
    known: Vec<(u16, Asker)>,
}

/// The partition that a command begins to reconfigure.
fn reconfigured_by(command: &Command) -> Option<u16> {
    match command {
        Command::Create(partition, _)
        | Command::Swap(partition, _)
        | Command::Heal(partition, _)
        | Command::Lose(partition, _) => Some(*partition),
        _ => None,
    }
}

impl Commanders {
    /// Nobody has commanded one.
    pub(crate) fn new(alloc: Global) -> Commanders {
        Commanders {
            known: Vec::new(alloc),
        }
    }

    /// The command came of this asker.
    pub(crate) fn note(&mut self, command: &Command, asker: Asker) {
        let Some(partition) = reconfigured_by(command) else {
            return;
        };
        match self.known.iter().position(|one| one.0 == partition) {
            Some(place) => self.known[place] = (partition, asker),
            None => {
                let _ = self.known.push((partition, asker));
            }
        }
    }

    /// To whom a refusal is said in a step with this input that has no command: it answers the last reconfiguration of
    /// the partition of which the step takes a Prepared.
    pub(crate) fn answered(&self, input: &Input) -> Option<Asker> {
        match input {
            Input::Frame(message) => match &message.body {
                Body::Prepared { partition, .. } => self.asker_of(*partition),
                _ => None,
            },
            _ => None,
        }
    }

    fn asker_of(&self, partition: u16) -> Option<Asker> {
        for one in &self.known {
            if one.0 == partition {
                return Some(one.1);
            }
        }
        None
    }
}
