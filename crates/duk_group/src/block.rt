//! The transaction keys of a block of counters, made together. Each lane has 64 successive counters,
//! and each of the 64 rows has one key of each lane.
//!
//! The first counter of a lane ends in six zero bits, and its key is made by a walk down its path.
//! The key of each other one is a step below that of the counter without its lowest one bit, which
//! is in the same lane: so no lane waits for another.

ghost use Rattle.std.specs.Prelude.{◌≡◌, ◌<◌, ◌≤◌, ◌+◌, ◌*◌, ◌^◌, ◌%◌, ◌⊎◌, ℕ, List, [], slice_index_or};
ghost use Rattle.duk_lanes.specs.Words.{wide_lane};
ghost use Rattle.duk_tree.specs.Derivation.{step_of, transaction_key_of};
ghost use Rattle.duk_tree.specs.Serial.{IsIksn, low_bytes};
ghost use Rattle.duk_group.specs.Blocks.{block_of, key_of};
ghost use Rattle.duk_group.specs.Numbers.{number_at};
ghost use Rattle.duk_group.specs.inner.Block.{AreKeysFrom, AreLanesAt, AreRegistersFrom, AreRowsFrom, IsBlockOf};

use crate::derivation::transaction_keys;
use crate::key::LaneKeys;
use crate::masks::masked;
use crate::nodes::step;
use crate::transposed::{WIDTH, Word, gather_blocks, scatter_keys, spread_key};
use duk_tdes::Key;
use duk_tree::{Iksn, Ksn};

/// How many low bits of a counter tell its row.
const LOW_BITS: u32 = 6;

/// How many rows a block has: one for each counter of a lane.
const ROWS: usize = 64;

/// How many counters a block has.
const COUNTERS: u32 = (ROWS * WIDTH) as u32;

/// The block that was made last: the counter that it begins with, and its keys in rows. The counter
/// is none before the first block is made.
#[derive(Drop)]
pub(crate) struct Block {
    base: Option<u32>,
    rows: [[Key<16>; WIDTH]; ROWS],
}

impl Block {
    /// No block yet.
    pub(crate) fn none() -> Block
        ensures { (initial : List ℕ) (iksn : ℕ) → IsBlockOf initial iksn result }
    {
        Block {
            base: None,
            rows: [[Key::new([0; 16]); WIDTH]; ROWS],
        }
    }

    /// The key of a counter, from the block that it is in. This block is made first, unless it is
    /// the one that is there.
    pub(crate) fn key(&mut self, initial: &Key<16>, iksn: Iksn, counter: u32) -> Key<16>
        requires counter { counter < 2 ^ 21 }
        requires block { IsBlockOf initial.now iksn self.old }
        ensures key { result ≡ transaction_key_of initial.now iksn counter }
        ensures block { IsBlockOf initial.now iksn self.new }
    {
        let base = counter / COUNTERS * COUNTERS;
        if self.base != Some(base) {
            fill_block(initial, iksn, base, &mut self.rows);
            self.base = Some(base);
        }
        let place = (counter - base) as usize;
        self.rows[place % ROWS][place / ROWS]
    }
}

/// Makes the keys of the counters from this one on, in all rows and lanes.
fn fill_block(initial: &Key<16>, iksn: Iksn, base: u32, rows: &mut [[Key<16>; WIDTH]; ROWS])
    requires whole { base % 64 ≡ 0 }
    requires fits { base + 64 * WIDTH ≤ 2 ^ 21 }
    ensures { AreKeysFrom initial.now iksn base rows.new }
{
    let numbers = first_numbers(iksn, base);
    let keys = transaction_keys(&spread_key(initial), &numbers);
    fill_rows(&keys, &registers_of(&numbers), 0, LOW_BITS, rows);
}

/// The key serial numbers of the first counter of each lane.
fn first_numbers(iksn: Iksn, base: u32) -> [Ksn; WIDTH]
    requires { base + 64 * WIDTH ≤ 2 ^ 21 }
    ensures numbers { (i : ℕ) → i < WIDTH
        → number_at result i ≡ record { iksn = iksn; counter = base + 64 * i } }
    ensures iksn { IsIksn iksn }
{
    let mut numbers = [iksn.with_counter(base); WIDTH];
    for i in 0..WIDTH {
        numbers[i] = iksn.with_counter(base + 64 * i as u32);
    }
    numbers
}

/// The low 64 bits of each key serial number, a lane for each.
fn registers_of(numbers: &[Ksn; WIDTH]) -> [Word; 64]
    ensures { (i : ℕ) → i < WIDTH
        → block_of wide_lane i result ≡ low_bytes (number_at numbers.now i) }
{
    duk_tree::laws::serials();
    let mut blocks = [[0; 8]; WIDTH];
    for i in 0..WIDTH {
        blocks[i] = numbers[i].low_bytes();
    }
    gather_blocks(&blocks)
}

/// Makes the keys of the rows from `low` on, 2 to the power of `place` of them, from the keys of the
/// row `low` in each lane. `registers` has the low 64 bits of the key serial number of row 0.
fn fill_rows(
    keys: &LaneKeys<Word>,
    registers: &[Word; 64],
    low: u8,
    place: u32,
    rows: &mut [[Key<16>; WIDTH]; ROWS],
)
    requires place { place ≤ 6 }
    requires whole { low % 2 ^ place ≡ 0 }
    requires fits { low + 2 ^ place ≤ 64 }
    ensures keys { (initial : List ℕ) (iksn base : ℕ) → IsIksn iksn → base % 64 ≡ 0
        → base + 64 * WIDTH ≤ 2 ^ 21
        → AreLanesAt initial iksn base low keys.now.left keys.now.right
        → AreRegistersFrom iksn base registers.now
        → AreRowsFrom initial iksn base low (low + 2 ^ place) rows.new }
    ensures others { (row : ℕ) → (row < low) ⊎ (low + 2 ^ place ≤ row)
        → slice_index_or rows.new row [] ≡ slice_index_or rows.old row [] }
{
    if place == 0 {
        rows[low as usize] = scatter_keys(keys);
        return;
    }
    duk_tree::laws::paths();
    duk_tree::laws::bits();
    let half = place - 1;
    let child = low + (1 << half);
    let children = child_keys(keys, registers, child);
    fill_rows(keys, registers, low, half, rows);
    fill_rows(&children, registers, child, half, rows);
}

/// The keys of the row `child` in each lane, from those of its parents.
fn child_keys(parents: &LaneKeys<Word>, registers: &[Word; 64], child: u8) -> LaneKeys<Word>
    requires { child < 64 }
    ensures { (i iksn counter : ℕ) → i < WIDTH → IsIksn iksn → counter % 64 ≡ 0
        → block_of wide_lane i registers.now
        ≡ low_bytes (record { iksn = iksn; counter = counter })
        → key_of wide_lane i result.left result.right
        ≡ step_of (key_of wide_lane i parents.now.left parents.now.right)
        (low_bytes (record { iksn = iksn; counter = counter + child })) }
{
    step(parents, &masked(registers, &[0, 0, 0, 0, 0, 0, 0, child]))
}
