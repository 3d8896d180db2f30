//! The initial keys of terminals, made in lanes (ANSI X9.24-1:2009 annex A).

ghost use Rattle.std.specs.Prelude.{◌≡◌, ◌<◌, ℕ, slice_index_or, take};
ghost use Rattle.duk_lanes.specs.Words.{wide_lane};
ghost use Rattle.duk_tree.specs.Derivation.{initial_key_of};
ghost use Rattle.duk_tree.specs.Serial.{iksn_bytes};
ghost use Rattle.duk_group.specs.Blocks.{block_of};
ghost use Rattle.duk_group.specs.Numbers.{bytes_at};
ghost use Rattle.duk_group.specs.declared.transposed.TheConstants.{WIDTH};

use crate::nodes::initial_keys;
use crate::transposed::{WIDTH, Word, gather_blocks, scatter_keys, spread_key};
use duk_tdes::{Key, array_of};
use duk_tree::Iksn;

/// The initial key of a terminal, under the base derivation key: the one that
/// `duk_tree::initial_key` makes. That function is faster for a single terminal, but reads tables at
/// places that depend on the base derivation key; this one reads none, and takes no branch on a key.
pub fn initial_key(bdk: &Key<16>, iksn: Iksn) -> Key<16>
    ensures { result ≡ initial_key_of bdk.now iksn }
{
    initial_group(bdk, &[iksn; WIDTH])[0]
}

/// The initial keys of `WIDTH` terminals, under one base derivation key, in their order.
pub fn initial_group(bdk: &Key<16>, iksns: &[Iksn; WIDTH]) -> [Key<16>; WIDTH]
    ensures { (i : ℕ) → i < WIDTH
        → bytes_at result i ≡ initial_key_of bdk.now (slice_index_or iksns.now i 0) }
{
    scatter_keys(&initial_keys(&spread_key(bdk), &first_blocks(iksns)))
}

/// The first eight bytes of each initial key serial number, a lane for each.
fn first_blocks(iksns: &[Iksn; WIDTH]) -> [Word; 64]
    ensures { (i : ℕ) → i < WIDTH → block_of wide_lane i result
        ≡ take 8 (iksn_bytes (slice_index_or iksns.now i 0)) }
{
    duk_tree::laws::serials();
    let mut blocks = [[0; 8]; WIDTH];
    for i in 0..WIDTH {
        blocks[i] = array_of(&iksns[i].bytes()[..8]);
    }
    gather_blocks(&blocks)
}
