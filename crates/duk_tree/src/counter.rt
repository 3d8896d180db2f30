//! Which counters number a transaction.

ghost use Rattle.std.specs.Prelude.{◌<◌, ◌^◌, ◌↔◌, IsTrue};
ghost use Rattle.duk_tree.specs.Path.{IsUsable};

use crate::next::MOST_ONES;

/// The greatest counter of 21 bits.
const LAST_COUNTER: u32 = 0x1F_FFFF;

/// Whether the counter numbers a transaction: it has one to ten one bits, among the low 21. So the
/// keys of a terminal are at most ten steps from its initial key.
pub fn usable(counter: u32) -> bool
    ensures usable { IsTrue result ↔ IsUsable counter }
    ensures fits { IsTrue result → counter < 2 ^ 21 }
{
    counter <= LAST_COUNTER && (1..=MOST_ONES).contains(&counter.count_ones())
}
