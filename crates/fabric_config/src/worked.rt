ghost use Rattle.std.specs.Prelude.{◌≡◌, Ok, Err, codes};
ghost use Rattle.fabric_config.specs.Config.{config_of_line};
ghost use Rattle.fabric_config.specs.Worked.{line_of, one_node, node_1_twice, settings, without_drift, with_drift_200};
ghost use Rattle.fabric_config.specs.Worked.{one_node_config};

use crate::error::ConfigError;
use crate::field::Field;

/// What the definition says of some worked lines, computed: a law of the definition.
pub fn worked_lines()
    ensures read { config_of_line (line_of settings one_node (codes ",\"first\":1}"))
        ≡ Ok one_node_config }
    ensures unknown_field { config_of_line (line_of settings one_node (codes ",\"first\":1,\"note\":[{\"a\":[1]},[]]}"))
        ≡ Ok one_node_config }
    ensures cut_off { config_of_line (line_of settings one_node (codes ",\"first\":"))
        ≡ Err ConfigError.NotJson }
    ensures missing { config_of_line (line_of without_drift one_node (codes ",\"first\":1}"))
        ≡ Err (ConfigError.Missing Field.Drift) }
    ensures out_of_range { config_of_line (line_of with_drift_200 one_node (codes ",\"first\":1}"))
        ≡ Err (ConfigError.OutOfRange Field.Drift 200) }
    ensures repeated { config_of_line (line_of settings node_1_twice (codes ",\"first\":1}"))
        ≡ Err (ConfigError.Repeated 1) }
{}
