ghost use Rattle.std.specs.Prelude.{◌≡◌, ◌≤◌, ℕ, List, IfSome, is_some, map, string_bytes};
ghost use Rattle.fabric_top.specs.Forms.{FitsForm, arbiter_form, cluster_form, drill_form, form_of, four_words};
ghost use Rattle.fabric_top.specs.Forms.{generate_form, node_form, number_of, one_word, three_words, turns_of};
ghost use Rattle.fabric_top.specs.Forms.{two_words};
ghost use Rattle.fabric_top.specs.Splits.{IsSplit};

use crate::form::Form;
use crate::split::Split;
use ring_points::{MAX_ARBITRATORS, MAX_NODE_NUMBER};
use text_fields::last_number;

/// How many turns a run has at most.
const MAX_TURNS: u64 = 1_000_000_000;

/// How many nodes a made schedule has at most.
const MAX_GENERATED_NODES: u64 = 16;

/// How many rounds a made schedule has at most.
const MAX_GENERATED_ROUNDS: u64 = 10_000;

/// The number that the word is, where it is one of these.
fn number_of(least: u64, greatest: u64, word: &str) -> Option<u64>
    ensures number { result ≡ number_of least greatest word.now }
    ensures range { IfSome result (λ n. (least ≤ n) × (n ≤ greatest)) }
{
    last_number(least, greatest, word.as_bytes()).ok()
}

fn turns_of(word: &str) -> Option<u64>
    ensures { result ≡ turns_of word.now }
{
    number_of(1, MAX_TURNS, word)
}

fn node_form(node: &str, turns: &str) -> Option<Form>
    ensures form { result ≡ node_form node.now turns.now }
    ensures fits { IfSome result FitsForm }
{
    let node = number_of(1, u64::from(MAX_NODE_NUMBER), node)?;
    let turns = turns_of(turns)?;
    Some(Form::Node {
        node: node as u16,
        turns,
    })
}

fn arbiter_form(arbiter: &str, turns: &str) -> Option<Form>
    ensures form { result ≡ arbiter_form arbiter.now turns.now }
    ensures fits { IfSome result FitsForm }
{
    let arbiter = number_of(1, MAX_ARBITRATORS as u64, arbiter)?;
    let turns = turns_of(turns)?;
    Some(Form::Arbiter {
        arbiter: arbiter as u8,
        turns,
    })
}

fn cluster_form(turns: &str) -> Option<Form>
    ensures form { result ≡ cluster_form turns.now }
    ensures fits { IfSome result FitsForm }
{
    let turns = turns_of(turns)?;
    Some(Form::Cluster { turns })
}

fn generate_form(seed: &str, nodes: &str, rounds: &str) -> Option<Form>
    ensures form { result ≡ generate_form seed.now nodes.now rounds.now }
    ensures fits { IfSome result FitsForm }
{
    let seed = number_of(0, u64::MAX, seed)?;
    let nodes = number_of(1, MAX_GENERATED_NODES, nodes)?;
    let rounds = number_of(1, MAX_GENERATED_ROUNDS, rounds)?;
    Some(Form::Generate {
        seed,
        nodes: nodes as u16,
        rounds: rounds as u32,
    })
}

fn drill_form(seed: &str, nodes: &str, rounds: &str) -> Option<Form>
    ensures form { result ≡ drill_form seed.now nodes.now rounds.now }
    ensures fits { IfSome result FitsForm }
{
    let seed = number_of(0, u64::MAX, seed)?;
    let nodes = number_of(1, MAX_GENERATED_NODES, nodes)?;
    let rounds = number_of(1, MAX_GENERATED_ROUNDS, rounds)?;
    Some(Form::Drill {
        seed,
        nodes: nodes as u16,
        rounds: rounds as u32,
    })
}

fn one_word(command: &str) -> Option<Form>
    ensures form { result ≡ one_word command.now }
    ensures fits { IfSome result FitsForm }
{
    if command == "replay" {
        Some(Form::Replay)
    } else if command == "writes" {
        Some(Form::Writes)
    } else if command == "trace" {
        Some(Form::Trace)
    } else if command == "audit" {
        Some(Form::Audit)
    } else {
        None
    }
}

fn two_words(command: &str, turns: &str) -> Option<Form>
    ensures form { result ≡ two_words command.now turns.now }
    ensures fits { IfSome result FitsForm }
{
    if command == "cluster" {
        cluster_form(turns)
    } else {
        None
    }
}

fn three_words(command: &str, number: &str, turns: &str) -> Option<Form>
    ensures form { result ≡ three_words command.now number.now turns.now }
    ensures fits { IfSome result FitsForm }
{
    if command == "node" {
        node_form(number, turns)
    } else if command == "arbiter" {
        arbiter_form(number, turns)
    } else {
        None
    }
}

fn four_words(command: &str, seed: &str, nodes: &str, rounds: &str) -> Option<Form>
    ensures form { result ≡ four_words command.now seed.now nodes.now rounds.now }
    ensures fits { IfSome result FitsForm }
{
    if command == "generate" {
        generate_form(seed, nodes, rounds)
    } else if command == "drill" {
        drill_form(seed, nodes, rounds)
    } else {
        None
    }
}

/// Whether the words, without the program's name, are one of the forms.
#[tactic(auto, unfolding(crate::specs::Forms::form_of))]
pub(crate) fn is_form(words: &[String]) -> bool
    ensures { result ≡ is_some (form_of (map string_bytes words.now)) }
{
    let form = match words {
        [command] => one_word(command.as_str()),
        [command, first] => two_words(command.as_str(), first.as_str()),
        [command, first, second] => {
            three_words(command.as_str(), first.as_str(), second.as_str())
        }
        [command, first, second, third] => four_words(
            command.as_str(),
            first.as_str(),
            second.as_str(),
            third.as_str(),
        ),
        _ => None,
    };
    form.is_some()
}

/// The form that the split words are.
pub(crate) fn form_in(split: &Split) -> Option<Form>
    ensures form { (words : List (List ℕ)) → IsSplit words split.now → result ≡ form_of words }
    ensures fits { IfSome result FitsForm }
{
    let command = split.command?;
    match (split.first, split.second, split.third) {
        (None, _, _) => one_word(command),
        (Some(first), None, _) => two_words(command, first),
        (Some(first), Some(second), None) => three_words(command, first, second),
        (Some(first), Some(second), Some(third)) => four_words(command, first, second, third),
    }
}
