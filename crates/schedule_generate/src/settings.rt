// The configuration of generated schedules.
ghost use Rattle.std.specs.Prelude.{◌≡◌, ◌++◌, ◌≤◌, IfOk, OnOk};
ghost use Rattle.fabric_terms.specs.Sound.{IsSound};
ghost use Rattle.schedule_generate.specs.Settings.{config_line, generated_config, most_generated_nodes, node_text};
ghost use Rattle.schedule_generate.specs.Settings.{nodes_text, point_of_node};

use crate::lines::push_counted;
use fabric_config::{ConfigError, read_config};
use fabric_terms::{FabricConfig, OutOfMemory};
use std::alloc::Global;
use text_fields::{push_bytes, push_point};

/// The point of a node: the nodes stand in equal distances, the first at point 0.
fn point_of(node: u16) -> u64
    requires some { 1 ≤ node }
    requires few { node ≤ most_generated_nodes }
    ensures { result ≡ point_of_node node }
{
    u64::from(node - 1) * (1 << 60)
}

fn push_node(text: &mut Vec<u8>, node: u16) -> Result<(), OutOfMemory>
    requires some { 1 ≤ node }
    requires few { node ≤ most_generated_nodes }
    ensures { OnOk result (text.new.items ≡ text.old.items ++ node_text node) }
{
    push_counted(text, b"{\"node\":", u64::from(node))?;
    push_bytes(text, b",\"point\":\"")?;
    push_point(text, point_of(node))?;
    push_counted(text, b"\",\"domain\":", u64::from(node))?;
    push_bytes(text, b"}")
}

/// The nodes behind the first.
fn push_others(text: &mut Vec<u8>, nodes: u16) -> Result<(), OutOfMemory>
    requires some { 1 ≤ nodes }
    requires few { nodes ≤ most_generated_nodes }
    ensures { OnOk result (text.new.items ≡ text.old.items ++ nodes_text nodes) }
{
    for i in 0..nodes - 1 {
        push_bytes(text, b",")?;
        push_node(text, i + 2)?;
    }
    Ok(())
}

/// Appends the line of the configuration of so many nodes, without its line feed.
pub fn push_config_line(text: &mut Vec<u8>, nodes: u16) -> Result<(), OutOfMemory>
    requires some { 1 ≤ nodes }
    requires few { nodes ≤ most_generated_nodes }
    ensures { OnOk result (text.new.items ≡ text.old.items ++ config_line nodes) }
{
    push_bytes(
        text,
        b"{\"lease\":3000,\"answer\":1000,\"drift\":10,\"grain\":1,\"nodes\":[",
    )?;
    push_node(text, 1)?;
    push_others(text, nodes)?;
    push_bytes(
        text,
        b"],\"arbiters\":[{\"arbiter\":1},{\"arbiter\":2},{\"arbiter\":3}],\"first\":1}",
    )
}

/// The configuration of that line.
pub fn config_of(alloc: Global, nodes: u16) -> Result<FabricConfig, OutOfMemory>
    requires some { 1 ≤ nodes }
    requires few { nodes ≤ most_generated_nodes }
    ensures is { IfOk result (λ c. c ≡ generated_config nodes) }
    ensures sound { IfOk result IsSound }
{
    let mut line = Vec::new(alloc);
    push_config_line(&mut line, nodes)?;
    match read_config(alloc, &line) {
        Ok(config) => Ok(config),
        Err(ConfigError::OutOfMemory) => Err(OutOfMemory),
        Err(_) => unreachable!(),
    }
}
