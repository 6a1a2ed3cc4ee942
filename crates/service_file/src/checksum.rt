ghost use Rattle.std.specs.Prelude.{◌≡◌, ◌++◌, ℕ, List, OnOk, IfOk};
ghost use Rattle.std.specs.List.{flat_map};
ghost use Rattle.fabric_terms.specs.Sound.{IsSound};
ghost use Rattle.fabric_terms.specs.declared.config.FabricConfig.{FabricConfig as Configuration};
ghost use Rattle.service_file.specs.Texts.{arbiter_line, checksum_of, line, node_line, numbered, ring_text};
ghost use Rattle.service_file.specs.Texts.{text_of_config, times_text, without_addresses};

use fabric_terms::{Address, FabricConfig, NodeEntry, OutOfMemory};
use sha2::{Digest, Sha256};
use std::alloc::Global;
use text_fields::{push_bytes, push_number, push_point};

/// Appends a number behind a word.
fn push_numbered(into: &mut Vec<u8>, word: &[u8], number: u64) -> Result<(), OutOfMemory>
    ensures { OnOk result (into.new.items ≡ into.old.items ++ numbered word.now number) }
{
    push_bytes(into, word)?;
    push_number(into, number)
}

/// The same as a line.
#[tactic(auto, unfolding(crate::specs::Texts::line))]
fn push_line(into: &mut Vec<u8>, word: &[u8], number: u64) -> Result<(), OutOfMemory>
    ensures { OnOk result (into.new.items ≡ into.old.items ++ line word.now number) }
{
    push_numbered(into, word, number)?;
    push_bytes(into, b"\n")
}

#[tactic(auto, unfolding(crate::specs::Texts::node_line))]
fn push_node(into: &mut Vec<u8>, node: &NodeEntry) -> Result<(), OutOfMemory>
    ensures { OnOk result (into.new.items ≡ into.old.items ++ node_line node.now) }
{
    push_numbered(into, b"node ", u64::from(node.node))?;
    push_bytes(into, b" ")?;
    push_point(into, node.point.0)?;
    push_numbered(into, b" ", u64::from(node.domain))?;
    push_line(into, b" ", node.longest)
}

fn push_nodes(into: &mut Vec<u8>, nodes: &[NodeEntry]) -> Result<(), OutOfMemory>
    ensures { OnOk result (into.new.items ≡ into.old.items ++ flat_map node_line nodes.now) }
{
    for node in nodes {
        push_node(into, node)?;
    }
    Ok(())
}

fn push_arbiters(into: &mut Vec<u8>, arbiters: &[(u16, Address)]) -> Result<(), OutOfMemory>
    ensures { OnOk result (into.new.items ≡ into.old.items ++ flat_map arbiter_line arbiters.now) }
{
    for arbiter in arbiters {
        push_line(into, b"arbiter ", u64::from(arbiter.0))?;
    }
    Ok(())
}

fn push_times(into: &mut Vec<u8>, config: &FabricConfig) -> Result<(), OutOfMemory>
    ensures { OnOk result (into.new.items ≡ into.old.items ++ times_text config.now) }
{
    push_bytes(into, b"fabricd 1\n")?;
    push_line(into, b"lease ", config.lease)?;
    push_line(into, b"answer ", config.answer)?;
    push_line(into, b"drift ", config.bound.d)?;
    push_line(into, b"grain ", config.bound.grain)
}

fn push_ring(into: &mut Vec<u8>, config: &FabricConfig) -> Result<(), OutOfMemory>
    ensures { OnOk result (into.new.items ≡ into.old.items ++ ring_text config.now) }
{
    push_line(into, b"near ", u64::from(config.near))?;
    push_line(into, b"rounds ", u64::from(config.rounds))?;
    push_line(into, b"first ", u64::from(config.first))
}

/// The SHA-256 of the text of a configuration, which has everything but addresses.
#[tactic(auto, unfolding(crate::specs::Texts::text_of_config))]
pub fn checksum_of(alloc: Global, config: &FabricConfig) -> Result<[u8; 32], OutOfMemory>
    ensures { IfOk result (λ checksum. checksum ≡ checksum_of config.now) }
{
    let mut text = Vec::new(alloc);
    push_times(&mut text, config)?;
    push_ring(&mut text, config)?;
    push_nodes(&mut text, config.nodes.as_slice())?;
    push_arbiters(&mut text, config.arbiters.as_slice())?;
    Ok(Sha256::digest(text.as_slice()))
}
