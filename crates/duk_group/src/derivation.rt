//! The transaction keys of many key serial numbers at once (ANSI X9.24-1:2009 annex A).

ghost use Rattle.std.specs.Prelude.{◌≡◌, ◌<◌, ◌≤◌, ◌-◌, ℕ, map, take, drop, length, replicate};
ghost use Rattle.duk_tree.specs.Derivation.{transaction_key_of, derived_key_of};
ghost use Rattle.duk_lanes.specs.Words.{wide_lane};
ghost use Rattle.duk_group.specs.Blocks.{block_of, key_of};
ghost use Rattle.duk_group.specs.Numbers.{number_at};
ghost use Rattle.duk_tree.specs.Serial.{iksn_bytes};
ghost use Rattle.duk_group.specs.declared.transposed.TheConstants.{WIDTH};

use crate::key::LaneKeys;
use crate::nodes::{initial_keys, step};
use crate::transposed::{WIDTH, Word, first_of, gather_blocks, scatter_keys, spread_key};
use crate::turns::{PAUSE, blocks_of_turns, going};
use crate::walk::{COUNTER_BITS, advance};
use duk_tdes::{Key, array_of};
use duk_tree::Ksn;

/// The transaction keys of at most `WIDTH` key serial numbers, under one base derivation key, in
/// their order. Behind the last one there are keys of zeros.
pub fn derive_group(bdk: &Key<16>, numbers: &[Ksn]) -> [Key<16>; WIDTH]
    requires { length numbers.now ≤ WIDTH }
    ensures keys { take (length numbers.now) result ≡ map (derived_key_of bdk.now) numbers.now }
    ensures rest { drop (length numbers.now) result
        ≡ replicate (WIDTH - length numbers.now) (replicate 16 0) }
{
    let keys = scatter_keys(&derived_keys(&spread_key(bdk), numbers));
    first_of(&keys, numbers.len(), Key::new([0; 16]))
}

/// The transaction keys of key serial numbers, under one base derivation key, in their order:
/// `keys` has room for as many as there are numbers.
pub fn derive_many(bdk: &Key<16>, numbers: &[Ksn], keys: &mut [Key<16>])
    requires { length keys.old ≡ length numbers.now }
    ensures { keys.new ≡ map (derived_key_of bdk.now) numbers.now }
{
    let mut done = 0;
    while done < numbers.len() {
        let count = (numbers.len() - done).min(WIDTH);
        let end = done + count;
        let group = derive_group(bdk, &numbers[done..end]);
        keys[done..end].copy_from_slice(&group[..count]);
        done = end;
    }
}

/// The transaction keys of at most `WIDTH` key serial numbers, a lane for each, under the base
/// derivation key of the lane.
pub fn derived_keys(bdks: &LaneKeys<Word>, numbers: &[Ksn]) -> LaneKeys<Word>
    requires { length numbers.now ≤ WIDTH }
    ensures { (i : ℕ) → i < length numbers.now
        → key_of wide_lane i result.left result.right
        ≡ derived_key_of (key_of wide_lane i bdks.now.left bdks.now.right)
        (number_at numbers.now i) }
{
    let initial = initial_keys(bdks, &first_blocks(numbers));
    transaction_keys(&initial, numbers)
}

/// The transaction keys of at most `WIDTH` key serial numbers, each under its lane's initial key.
pub fn transaction_keys(initial: &LaneKeys<Word>, numbers: &[Ksn]) -> LaneKeys<Word>
    requires { length numbers.now ≤ WIDTH }
    ensures { (i : ℕ) → i < length numbers.now
        → key_of wide_lane i result.left result.right
        ≡ transaction_key_of (key_of wide_lane i initial.now.left initial.now.right)
        (number_at numbers.now i).iksn (number_at numbers.now i).counter }
{
    duk_tree::laws::serials();
    let mut keys = *initial;
    let mut places = [COUNTER_BITS; WIDTH];
    let mut turns = [PAUSE; WIDTH];
    for _ in 0..COUNTER_BITS {
        if !advance(numbers, &mut places, &mut turns) {
            return keys;
        }
        let children = step(&keys, &blocks_of_turns(&turns));
        keys = keys.replaced(going(&turns), &children);
    }
    keys
}

/// The first eight bytes of each initial key serial number, a lane for each.
fn first_blocks(numbers: &[Ksn]) -> [Word; 64]
    requires { length numbers.now ≤ WIDTH }
    ensures { (i : ℕ) → i < length numbers.now → block_of wide_lane i result
        ≡ take 8 (iksn_bytes (number_at numbers.now i).iksn) }
{
    duk_tree::laws::serials();
    let mut blocks = [[0; 8]; WIDTH];
    for (i, number) in numbers.iter().enumerate() {
        blocks[i] = array_of(&number.iksn().bytes()[..8]);
    }
    gather_blocks(&blocks)
}
