ghost use Rattle.std.specs.Prelude.{◌≡◌};
ghost use Rattle.service_file.specs.Fields.{words_of};

/// A check of the service object that can fail: `fault service` and its words.
#[derive(Clone, Copy, Debug, PartialEq, Eq)]
pub enum ServiceField {
    /// The line is no JSON object in UTF-8.
    Json,
    /// A key is not one of its object's fields.
    Unknown,
    /// The nodes that the policy joins: a list of 0 to `MAX_NODES` configured nodes, each once. None where absent.
    Join,
    /// The declared partitions: a list of 0 to `MAX_DECLARED` objects, each partition once. None where absent.
    Partitions,
    /// The number of a declared partition, 0 to 65,535.
    Partition,
    /// How many members a declared partition is to have, 1 to `MAX_MEMBERS`.
    Replicas,
    /// After how many ticks a partition is healed: 1 to `MAX_LEASE`. The lease where absent.
    HealAfter,
    /// Which reports the log has: `some` or `all`. `some` where absent.
    Lines,
    /// Which instance may begin with the whole ring again: an object with both its fields. None where absent.
    Again,
    /// The configured node of that instance.
    Node,
    /// The number of that instance, 2 to `MAX_COUNTER`.
    Instance,
}

impl ServiceField {
    /// The words that name the check in a fault line. Those of a field are its key.
    pub fn words(self) -> &'static str
        ensures { result.now ≡ words_of self }
    {
        match self {
            ServiceField::Json => "json",
            ServiceField::Unknown => "unknown",
            ServiceField::Join => "join",
            ServiceField::Partitions => "partitions",
            ServiceField::Partition => "partition",
            ServiceField::Replicas => "replicas",
            ServiceField::HealAfter => "heal_after",
            ServiceField::Lines => "lines",
            ServiceField::Again => "again",
            ServiceField::Node => "node",
            ServiceField::Instance => "instance",
        }
    }
}
