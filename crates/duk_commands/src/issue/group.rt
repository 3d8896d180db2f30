//! The key blocks and check values of an order, made in lanes: those of as many terminals together
//! as there are lanes. So no branch and no address depends on a key.

ghost use Rattle.std.specs.Prelude.{◌≡◌, ◌+◌, ◌*◌, ◌<◌, ◌≤◌, ◌⊎◌, ℕ, List, Some, length, slice_index_or};
ghost use Rattle.duk_commands.specs.IssuedLines.{IsLine, padding_at};
ghost use Rattle.duk_commands.specs.Numbers.{iksn_at};
ghost use Rattle.duk_commands.specs.declared.issue.order.Order.{Order};
ghost use Rattle.duk_commands.specs.inner.IssueGroup.{IsGroupOf, initial_key_at};
ghost use Rattle.duk_group.specs.Numbers.{bytes_at};
ghost use Rattle.duk_mac.specs.CheckValue.{check_value_of};

use crate::issue::line::line_of;
use crate::issue::order::{Order, PADDING_LENGTH};
use crate::issue::serial::iksn_at;
use crate::lines::Lines;
use duk_block::KeyUse;
use duk_group::{KEY_BLOCK, WIDTH, check_values, initial_group, wrap_group};
use duk_tdes::array_of;
use duk_tree::Iksn;

/// The group that was made last: the place of its first terminal, and the key block and the check
/// value of each. The place is none before the first group is made.
///
/// Groups begin at multiples of `WIDTH`. A whole group is made even where one number alone is
/// issued: it takes about 0.15 ms, less than the sync of the number's append.
#[derive(Drop)]
pub(crate) struct LineGroup {
    base: Option<u32>,
    blocks: [[u8; KEY_BLOCK]; WIDTH],
    values: [[u8; 3]; WIDTH],
}

impl LineGroup {
    /// No group yet.
    pub(crate) fn none() -> LineGroup
        ensures { (order : Order) (padding : List ℕ) → IsGroupOf order padding result }
    {
        LineGroup {
            base: None,
            blocks: [[0; KEY_BLOCK]; WIDTH],
            values: [[0; 3]; WIDTH],
        }
    }

    /// The line of the terminal at a place, and the check value in it. Its group is made first,
    /// unless it is the one that is there.
    pub(crate) fn line(&mut self, order: &Order, place: u32, padding: &[u8]) -> (Lines, [u8; 3])
        requires place { place < order.now.count }
        requires padding { PADDING_LENGTH * order.now.count ≤ length padding.now }
        requires group { IsGroupOf order.now padding.now self.old }
        ensures line { IsLine order.now padding.now place result.0.items }
        ensures value { result.1 ≡ check_value_of (initial_key_at order.now place) }
        ensures group { IsGroupOf order.now padding.now self.new }
    {
        let base = place / WIDTH as u32 * WIDTH as u32;
        self.hold_from(order, base, padding);
        let lane = (place - base) as usize;
        let (block, value) = (self.blocks[lane], self.values[lane]);
        let line = line_of(iksn_at(order.first, place), &block, &value);
        (line, value)
    }

    /// Makes the group from a place on, unless it is the one that is there.
    fn hold_from(&mut self, order: &Order, base: u32, padding: &[u8])
        requires place { base < order.now.count }
        requires padding { PADDING_LENGTH * order.now.count ≤ length padding.now }
        requires group { IsGroupOf order.now padding.now self.old }
        ensures base { self.new.base ≡ Some base }
        ensures group { IsGroupOf order.now padding.now self.new }
    {
        if self.base != Some(base) {
            *self = group_from(order, base, padding);
        }
    }
}

/// The group from a place on.
fn group_from(order: &Order, base: u32, padding: &[u8]) -> LineGroup
    requires place { base < order.now.count }
    requires padding { PADDING_LENGTH * order.now.count ≤ length padding.now }
    ensures base { result.base ≡ Some base }
    ensures group { IsGroupOf order.now padding.now result }
{
    let keys = initial_group(&order.bdk, &numbers_from(order, base));
    let paddings = paddings_from(order, base, padding);
    let header = KeyUse::InitialKey.header();
    LineGroup {
        base: Some(base),
        blocks: wrap_group(&order.loading, &header, &keys, &paddings),
        values: check_values(&keys),
    }
}

/// The numbers of the terminals from a place on. Behind the last one stands the order's first.
fn numbers_from(order: &Order, base: u32) -> [Iksn; WIDTH]
    requires { base < order.now.count }
    ensures { (i : ℕ) → i < WIDTH → base + i < order.now.count
        → slice_index_or result i 0 ≡ iksn_at order.now.first (base + i) }
{
    let mut numbers = [order.first; WIDTH];
    for lane in 0..lanes_from(order, base) {
        numbers[lane] = iksn_at(order.first, base + lane as u32);
    }
    numbers
}

/// The paddings of the terminals from a place on. Behind the last one stand zeros.
fn paddings_from(order: &Order, base: u32, padding: &[u8]) -> [[u8; PADDING_LENGTH]; WIDTH]
    requires place { base < order.now.count }
    requires padding { PADDING_LENGTH * order.now.count ≤ length padding.now }
    ensures { (i : ℕ) → i < WIDTH → base + i < order.now.count
        → bytes_at result i ≡ padding_at padding.now (base + i) }
{
    let mut paddings = [[0; PADDING_LENGTH]; WIDTH];
    for lane in 0..lanes_from(order, base) {
        let begin = PADDING_LENGTH * (base as usize + lane);
        paddings[lane] = array_of(&padding[begin..begin + PADDING_LENGTH]);
    }
    paddings
}

/// How many lanes have a terminal of the order, where the first has the one at a place: all, but for
/// the last group.
fn lanes_from(order: &Order, base: u32) -> usize
    requires { base < order.now.count }
    ensures most { result ≤ WIDTH }
    ensures inside { base + result ≤ order.now.count }
    ensures all { (result ≡ WIDTH) ⊎ (base + result ≡ order.now.count) }
{
    ((order.count - base) as usize).min(WIDTH)
}
