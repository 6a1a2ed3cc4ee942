//! What is answered to lines that are no configuration: mostly to the one line, changed in one place.
use crate::configurations::{FULL_LINE, LINE};
use fabric_config::{ConfigError, read_config};
use std::alloc::{AllocError, Global};
use std::process::Abort;
use std::test::Fail;

/// The one node of the line.
const NODE: &str = r#"{"node":1,"point":"0000000000000000"}"#;

/// The words of what a line is answered; `read` where it is a configuration.
fn answer(alloc: Global, line: &[u8]) -> Result<String, AllocError> {
    match read_config(alloc, line) {
        Ok(_) => String::from_str(alloc, "read"),
        Err(error) => error.words(alloc),
    }
}

/// The same of the line where `old` in it is `new`.
fn answer_with(alloc: Global, old: &str, new: &str) -> Result<String, AllocError> {
    let line = LINE.replace(alloc, old, new)?;
    answer(alloc, line.as_bytes())
}

/// Lines that are no JSON object, between bars.
const NOT_JSON: &str = "|{\"first\":1|[]|{} {}";

#[test]
fn a_line_is_an_object(rt: HostRuntime) -> Result<(), Fail> {
    for line in NOT_JSON.split('|') {
        let words = answer(rt.alloc(), line.as_bytes())?;
        assert!(rt; words.as_str() == "not json", "{line}");
    }
    Ok(())
}

/// Expects that a line without its end is no object, wherever it is cut before its last brace.
fn expect_no_front(rt: &impl Abort, alloc: Global, line: &[u8], last: usize) -> Result<(), Fail> {
    for end in 0..last.min(line.len()) {
        let words = answer(alloc, &line[..end])?;
        assert!(rt; words.as_str() == "not json", "at {end} bytes");
    }
    Ok(())
}

#[test]
fn a_front_of_a_line_is_no_object(rt: HostRuntime) -> Result<(), Fail> {
    let alloc = rt.alloc();
    expect_no_front(&rt, alloc, LINE.as_bytes(), LINE.len())?;
    let full = FULL_LINE.as_bytes();
    expect_no_front(&rt, alloc, full, full.len().saturating_sub(1))?;
    assert!(rt; answer_with(alloc, "\"first\":1}", "\"first\":1}}")?.as_str() == "not json");
    Ok(())
}

#[test]
fn a_line_is_text(rt: HostRuntime) -> Result<(), Fail> {
    let words = answer(rt.alloc(), b"{\"a\":\"\xff\"}")?;
    assert!(rt; words.as_str() == "not json");
    Ok(())
}

#[test]
fn an_empty_object_has_no_lease(rt: HostRuntime) -> Result<(), Fail> {
    let words = answer(rt.alloc(), b"{}")?;
    assert!(rt; words.as_str() == "missing lease");
    Ok(())
}

/// The words that are wanted, then what goes out of the line, and what comes in its place. The first check that fails
/// gives the words, where several do.
const CHANGES: &str = r#"read|1|1
range lease 5|3000|5
range lease 9|3000|9
range lease 1000000001|3000|1000000001
range lease 18446744073709551615|3000|18446744073709551615
missing lease|3000|18446744073709551616
missing lease|3000|3000.0
missing lease|3000|3e3
missing lease|3000|-3
missing lease|3000|-0
missing lease|3000|"3000"
range lease 9|3000|9,"answer":0
range answer 0|1000|0
missing drift|"drift":10,|
range drift 200|10,|200,
range drift 101|10,|101,
range grain 1000001|"grain":1|"grain":1000001
range near 5|"nodes"|"near":5,"rounds":9,"nodes"
missing near|"nodes"|"near":null,"nodes"
range rounds 0|"nodes"|"rounds":0,"nodes"
range rounds 9|"nodes"|"rounds":9,"nodes"
missing nodes|[{"node":1,"point":"0000000000000000"}]|{}
range nodes 0|{"node":1,"point":"0000000000000000"}|
missing nodes|{"node":1,"point":"0000000000000000"}|7
missing node|"node":1,|
range node 0|"node":1,|"node":0,
range node 1000|"node":1,|"node":1000,
missing point|0000000000000000|000000000000000
missing point|0000000000000000|000000000000000A
missing point|0000000000000000|+000000000000000
missing point|"0000000000000000"|0
range domain 0|"}]|","domain":0}]
range domain 65|"}]|","domain":65}]
missing at|"}]|","at":1}]
range longest 9|"}]|","longest":9}]
missing at|"}]|","longest":9,"at":1}]
repeated 1|"}]|"},{"node":1,"point":"0000000000000001"}]
repeated 2|"}]|"},{"node":2,"point":"0000000000000000"}]
missing point|"}]|"},{"node":1,"point":"0000000000000001"},{"node":3}]
range arbiters 0|{"arbiter":1},{"arbiter":2},{"arbiter":3}|
range arbiter 2|{"arbiter":1},|
range arbiter 1|{"arbiter":2}|{"arbiter":1}
missing arbiters|{"arbiter":1}|[]
missing at|{"arbiter":1}|{"arbiter":1,"at":{}}
range first 2|"first":1|"first":2
range first 65537|"first":1|"first":65537
missing first|,"first":1|"#;

/// The three parts of a row of changes. Where it has fewer, the first is not the words of an answer.
fn parts(row: &str) -> (&str, &str, &str) {
    match row.split_once('|') {
        Some((want, change)) => match change.split_once('|') {
            Some((old, new)) => (want, old, new),
            None => ("no row", want, change),
        },
        None => ("no row", row, ""),
    }
}

#[test]
fn answers_the_first_check_that_fails(rt: HostRuntime) -> Result<(), Fail> {
    for row in CHANGES.lines() {
        let (want, old, new) = parts(row);
        let words = answer_with(rt.alloc(), old, new)?;
        assert_eq!(rt; words.as_str(), want, "{new} for {old}");
    }
    Ok(())
}

/// 64 nodes, with commas between them.
fn most_nodes(alloc: Global) -> Result<String, Fail> {
    let mut nodes = String::from_str(alloc, "")?;
    for number in 1..64 {
        let node = format!(in alloc; "{{\"node\":{number},\"point\":\"{number:016x}\"}},")?;
        nodes.push_str(node.as_str())?;
    }
    nodes.push_str("{\"node\":64,\"point\":\"0000000000000040\"}")?;
    Ok(nodes)
}

#[test]
fn a_line_has_64_nodes(rt: HostRuntime) -> Result<(), Fail> {
    let nodes = most_nodes(rt.alloc())?;
    let words = answer_with(rt.alloc(), NODE, nodes.as_str())?;
    assert!(rt; words.as_str() == "read");
    Ok(())
}

#[test]
fn a_65th_node_is_refused(rt: HostRuntime) -> Result<(), Fail> {
    let mut nodes = most_nodes(rt.alloc())?;
    nodes.push_str(",7")?;
    let words = answer_with(rt.alloc(), NODE, nodes.as_str())?;
    assert!(rt; words.as_str() == "range nodes 65");
    Ok(())
}

#[test]
fn an_error_is_a_sentence(rt: HostRuntime) -> Result<(), Fail> {
    let sentence = ConfigError::Repeated(999).to_string(rt.alloc())?;
    assert!(rt; sentence.as_str() == "node 999 repeats an earlier node");
    Ok(())
}
