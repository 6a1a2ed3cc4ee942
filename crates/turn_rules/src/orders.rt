ghost use Rattle.std.specs.Prelude.{◌≡◌, ◌≤◌, ◌<◌, ◌+◌, ◌++◌, ◌∷◌, [], OnErr, OnOk, Some, length, map, slice_get};
ghost use Rattle.std.specs.Prelude.{slice_index, slice_range, vec_capacity, vec_len};
ghost use Rattle.line_format.specs.Commands.{command_of};
ghost use Rattle.turn_rules.specs.declared.order.Order.{Order as OrderOf};

use crate::order::Order;
use fabric_terms::{Command, OutOfMemory};
use sched_text::read_command;
use std::alloc::Global;
use std::marker::Model;

/// An order without its command: in which turn, to the actor at which place, and where its words end, in bytes.
#[derive(Drop)]
pub(crate) struct OrderHead {
    turn: u64,
    place: usize,
    end: usize,
}

/// The commands of a plan, in their order. Contracts see them as the list of the orders.
///
/// An order takes 24 bytes and the words of its command, which are read again when its turn comes. A command itself
/// takes some 540 bytes, whatever it is. So 2,000,000 commands of 20 bytes take 88 MB, at most 147 MB while they grow.
#[derive(Drop)]
pub struct Orders {
    heads: Vec<OrderHead>,
    /// The words of all commands, one after the other.
    words: Vec<u8>,
}

impl Model for Orders {
    ghost use Rattle.std.specs.Prelude.{List};
    ghost use Rattle.turn_rules.specs.declared.order.Order.{Order as OrderOf};
    ghost use Rattle.turn_rules.specs.Stored.{AreOrders, orders_in};

    ghost Value = { List OrderOf };

    ghost view = { λ o. orders_in 0 o.heads.items o.words.items };

    ghost invariant = { λ o. AreOrders 0 o.heads.items o.words.items };
}

/// Makes room for so many items more. A full vector grows by an eighth, so that both copies of its items, while they
/// move, take little more than twice what the items do.
fn make_room<T>(items: &mut Vec<T>, count: usize) -> Result<(), OutOfMemory>
    ensures items { items.new.items ≡ items.old.items }
    ensures room { OnOk result (vec_len items.new + count ≤ vec_capacity items.new) }
{
    if count > items.capacity() - items.len() {
        items.reserve_exact(count.max(items.len() / 8))?;
    }
    Ok(())
}

/// The words of the order at a place of the list: from where the order before it ends to where it ends.
fn words_at<'a>(words: &'a [u8], heads: &[OrderHead], index: usize) -> &'a [u8]
    requires known { index < length heads.now }
    requires in_order { slice_index (0 ∷ map (λ h. h.end) heads.now) index ≤
        slice_index (map (λ h. h.end) heads.now) index }
    requires within { slice_index (map (λ h. h.end) heads.now) index ≤ length words.now }
    ensures { result.now ≡ slice_range words.now (slice_index (0 ∷ map (λ h. h.end) heads.now) index)
        (slice_index (map (λ h. h.end) heads.now) index) }
{
    let start = if index == 0 { 0 } else { heads[index - 1].end };
    &words[start..heads[index].end]
}

impl Orders {
    /// No commands.
    pub fn new(alloc: Global) -> Self
        ensures { result ≡ [] }
    {
        Orders {
            heads: Vec::new(alloc),
            words: Vec::new(alloc),
        }
    }

    /// Adds an order behind the others, with the words that spell its command. It is an error where memory is short,
    /// and then nothing is added.
    pub fn push(&mut self, order: &Order, words: &[u8]) -> Result<(), OutOfMemory>
        requires words { command_of words.now ≡ Some order.now.command }
        ensures ok { OnOk result (self.new ≡ self.old ++ order.now ∷ []) }
        ensures err { OnErr result (self.new ≡ self.old) }
    {
        make_room(&mut self.heads, 1)?;
        make_room(&mut self.words, words.len())?;
        self.words.extend_from_slice(words)?;
        self.heads.push_reserved(OrderHead {
            turn: order.turn,
            place: order.place,
            end: self.words.as_slice().len(),
        });
        Ok(())
    }

    /// How many commands there are.
    pub fn len(&self) -> usize
        ensures { result ≡ length self.now }
    {
        self.heads.as_slice().len()
    }

    /// In which turn the command at a place of the list comes, counted from 1.
    pub fn turn_at(&self, index: usize) -> u64
        requires { index < length self.now }
        ensures { (o : OrderOf) × ((slice_get self.now index ≡ Some o) × (result ≡ o.turn)) }
    {
        self.heads[index].turn
    }

    /// To the actor at which place the command at a place of the list goes.
    pub fn place_at(&self, index: usize) -> usize
        requires { index < length self.now }
        ensures { (o : OrderOf) × ((slice_get self.now index ≡ Some o) × (result ≡ o.place)) }
    {
        self.heads[index].place
    }

    /// The command at a place of the list.
    pub fn command_at(&self, index: usize) -> Command
        requires { index < length self.now }
        ensures { (o : OrderOf) × ((slice_get self.now index ≡ Some o) × (result ≡ o.command)) }
    {
        let words = words_at(self.words.as_slice(), self.heads.as_slice(), index);
        match read_command(words) {
            Ok(command) => command,
            Err(_) => unreachable!(),
        }
    }
}
