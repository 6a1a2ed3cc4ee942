ghost use Rattle.std.specs.Prelude.{◌≡◌, Ok, Err, Some, None, codes, []};
ghost use Rattle.fabric_config.specs.Worked.{one_node_config};
ghost use Rattle.service_file.specs.declared.beginning.Beginning.TheVariants.{Anew, Emptied, NoteAnew};
ghost use Rattle.service_file.specs.declared.beginning.Beginning.TheVariants.{Passed, Usual, WrongInstance};
ghost use Rattle.service_file.specs.Beginnings.{begins_by};
ghost use Rattle.service_file.specs.Settings.{defaults, service_of};
ghost use Rattle.service_file.specs.Worked.{allowed, begun_file, everything, everything_line};

use crate::error::ServiceError;
use crate::field::ServiceField;

/// What the definition says of some worked lines, computed: a law of the definition.
pub fn worked_lines()
    ensures empty { service_of one_node_config [] ≡ Ok (defaults one_node_config) }
    ensures no_field { service_of one_node_config (codes "{}") ≡ Ok (defaults one_node_config) }
    ensures everything { service_of one_node_config everything_line ≡ Ok everything }
    ensures twice { service_of one_node_config (codes "{\"lines\":0,\"lines\":\"some\"}")
        ≡ Ok (defaults one_node_config) }
    ensures unknown { service_of one_node_config (codes "{\"joins\":[1],\"join\":0}")
        ≡ Err (ServiceError.Bad ServiceField.Unknown) }
    ensures once { service_of one_node_config (codes "{\"partitions\":[{\"partition\":7},{\"partition\":7}]}")
        ≡ Err (ServiceError.Bad ServiceField.Partitions) }
    ensures instance { service_of one_node_config (codes "{\"again\":{\"node\":1,\"instance\":1}}")
        ≡ Err (ServiceError.Bad ServiceField.Instance) }
{}

/// What the definition says of each case of a start with `again`, computed: a law of the definition.
#[tactic(auto, unfolding(crate::specs::Beginnings::begins_by))]
pub fn worked_beginnings()
    ensures without { begins_by begun_file (Some 4) None ≡ Usual }
    ensures of_another { begins_by begun_file (Some 4) (Some (record { node = 2; instance = 5 })) ≡ Usual }
    ensures next { begins_by begun_file (Some 6) (allowed 7) ≡ NoteAnew }
    ensures noted { begins_by begun_file (Some 4) (allowed 5) ≡ Anew }
    ensures passed { begins_by begun_file (Some 5) (allowed 5) ≡ Passed }
    ensures lost { begins_by begun_file (Some 3) (allowed 5) ≡ Emptied }
    ensures too_great { begins_by begun_file (Some 3) (allowed 7) ≡ WrongInstance }
    ensures emptied { begins_by begun_file None None ≡ Emptied }
{}
