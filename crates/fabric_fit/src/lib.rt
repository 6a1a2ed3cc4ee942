//! That what this fabric runs keeps to the ranges of frames.
//!
//! At a node the manager keeps units and reconfigurations, and the replicas keep logs; at an arbitrator the registers
//! of partitions keep epochs and configurations. All of that came in frames, in commands or in records. So whatever
//! comes in its ranges, forged or not, what is kept stays in its ranges, and so does all that is said by it: no epoch
//! is past the last number, no log has an entry too many, what is placed are members of a configuration, and each
//! report has a line.
#![tactic(auto)]

mod laws;

pub use laws::{
    each_step_of_a_node_is_in_format, each_step_of_an_arbitrator_is_in_format,
    every_frame_is_in_format, every_report_is_in_range,
};
