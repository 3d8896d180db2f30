//! Which keys the registers hold.

ghost use Rattle.std.specs.Prelude.{◌≡◌, ◌↔◌, ◌<◌, ◌≤◌, ◌+◌, ◌^◌, ℕ, length, IfSome, IsNone, IsTrue};
ghost use Rattle.duk_tree.specs.Serial.{IsIksn, low_bytes};
ghost use Rattle.duk_tree.specs.Path.{IsUsable, path_of};
ghost use Rattle.duk_tree.specs.Derivation.{step_of, transaction_key_of};
ghost use Rattle.duk_tree.specs.Frontier.{IsInFrontier};
ghost use Rattle.duk_regs.specs.Registers.{IsEmptyAt, LeavesEmpty, lowest_place, empty_register, register_at};

use duk_tdes::Key;
use duk_tree::{Iksn, Ksn, MOST_ONES, Parent, transaction_key, usable};

/// The bit places of a counter, each with a register.
pub(crate) const PLACES: usize = 21;

/// The counter of a terminal that has used all its numbers.
pub(crate) const SPENT: u32 = 1 << 21;

/// What a register holds where it holds no key.
pub(crate) fn no_key() -> Key<16>
    ensures { result ≡ empty_register }
{
    Key::new([0; 16])
}

/// The keys of the powers of two, the children of the root, each in the register of its bit.
pub(crate) fn first_registers(initial: &Key<16>, iksn: Iksn) -> [Key<16>; PLACES]
    ensures iksn { IsIksn iksn }
    ensures are_21 { length result ≡ 21 }
    ensures keys { (place : ℕ) → place < 21
        → register_at result place
        ≡ step_of initial.now (low_bytes (record { iksn = iksn; counter = 2 ^ place })) }
{
    let root = Parent::new(initial);
    let mut registers = [no_key(); PLACES];
    for place in 0..PLACES {
        registers[place] = root.child(iksn.with_counter(1 << place));
    }
    registers
}

/// The keys of the frontier at a number's counter, each in the register of its lowest one bit.
pub(crate) fn registers_at(initial: &Key<16>, ksn: Ksn) -> [Key<16>; PLACES]
    requires { IsUsable ksn.counter }
    ensures are_21 { length result ≡ 21 }
    ensures holds { (node : ℕ) → IsInFrontier ksn.counter node
        → register_at result (lowest_place node)
        ≡ transaction_key_of initial.now ksn.iksn node }
    ensures leaves_empty { LeavesEmpty ksn.counter result }
{
    duk_tree::laws::bits();
    let mut registers = [no_key(); PLACES];
    for place in 0..PLACES {
        registers[place] = frontier_key(initial, ksn, place as u32);
    }
    registers
}

/// The key of the frontier's node whose lowest one bit is at this place; no key where there is none.
fn frontier_key(initial: &Key<16>, ksn: Ksn, place: u32) -> Key<16>
    requires usable { IsUsable ksn.counter }
    requires place { place < 21 }
    ensures holds { (node : ℕ) → IsInFrontier ksn.counter node → lowest_place node ≡ place
        → result ≡ transaction_key_of initial.now ksn.iksn node }
    ensures empty { IsEmptyAt ksn.counter place → result ≡ empty_register }
{
    duk_tree::laws::bits();
    duk_tree::laws::frontier();
    match node_at(ksn.counter(), place) {
        Some(node) => transaction_key(initial, ksn.with_counter(node)),
        None => no_key(),
    }
}

/// Where the counter has fewer than ten one bits, gives each register below its lowest one bit the
/// key of the child at that place. An odd counter has no such register, and costs no key schedule.
pub(crate) fn fill_below(registers: &mut [Key<16>; PLACES], key: &Key<16>, iksn: Iksn, counter: u32)
    requires { IsUsable counter }
    ensures are_21 { length registers.new ≡ 21 }
    ensures filled { length (path_of counter) < 10 → (place : ℕ) → place < lowest_place counter
        → register_at registers.new place
        ≡ step_of key.now (low_bytes (record { iksn = iksn; counter = counter + 2 ^ place })) }
    ensures not_filled { 10 ≤ length (path_of counter) → registers.new ≡ registers.old }
    ensures others_stay { (place : ℕ) → lowest_place counter ≤ place
        → register_at registers.new place ≡ register_at registers.old place }
{
    duk_tree::laws::bits();
    duk_tree::laws::children();
    let places = counter.trailing_zeros();
    if places > 0 && counter.count_ones() < MOST_ONES {
        let parent = Parent::new(key);
        for place in 0..places {
            registers[place as usize] = parent.child(iksn.with_counter(counter + (1 << place)));
        }
    }
}

/// Whether each register holds no key where the frontier has no node for it.
pub(crate) fn leaves_empty(counter: u32, registers: &[Key<16>; PLACES]) -> bool
    requires some { 1 ≤ counter }
    requires fits { counter ≤ 2 ^ 21 }
    ensures { IsTrue result ↔ LeavesEmpty counter registers.now }
{
    for (place, register) in registers.iter().enumerate() {
        if node_at(counter, place as u32).is_none() && register.bytes() != [0; 16] {
            return false;
        }
    }
    true
}

/// The node of the frontier at this counter whose lowest one bit is at this place, if there is one.
/// It could only be the one whose parent is the greatest multiple of the next power of two below
/// the counter.
fn node_at(counter: u32, place: u32) -> Option<u32>
    requires some { 1 ≤ counter }
    requires fits { counter ≤ 2 ^ 21 }
    requires place { place < 21 }
    ensures none { IsNone result ↔ IsEmptyAt counter place }
    ensures found { IfSome result (λ node.
        IsInFrontier counter node × (lowest_place node ≡ place)) }
    ensures fits { IfSome result (λ node. node < 2 ^ 21) }
{
    duk_tree::laws::bits();
    duk_tree::laws::candidates();
    let parent = (counter - 1) >> (place + 1) << (place + 1);
    let node = parent + (1 << place);
    if node >= counter && usable(node) {
        Some(node)
    } else {
        None
    }
}
