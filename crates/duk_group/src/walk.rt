//! The way of each lane down the path of its counter, one bit after the other from the most
//! significant down.
//!
//! Counters are no secret: which lane goes on is decided here, outside the lanes.

ghost use Rattle.std.specs.Prelude.{◌≡◌, ◌<◌, ◌≤◌, ℕ, false, length, slice_index};
ghost use Rattle.duk_group.specs.Numbers.{number_at};
ghost use Rattle.duk_group.specs.inner.Turns.{turn_at};
ghost use Rattle.duk_group.specs.inner.Walk.{IsNext};
ghost use Rattle.duk_group.specs.declared.transposed.TheConstants.{WIDTH};

use crate::transposed::WIDTH;
use crate::turns::{PAUSE, Turn};
use duk_tree::Ksn;

/// The bits of a counter.
pub(crate) const COUNTER_BITS: u32 = 21;

/// The next node of one lane, below this place of its counter: its own place, and whether there is
/// one, with the low 64 bits of its own key serial number.
fn next_node(number: Ksn, place: u32) -> (u32, Turn)
    requires { place ≤ 21 }
    ensures { IsNext number place result.0 result.1 }
{
    let counter = number.counter();
    for next in (0..place).rev() {
        let reached = counter >> next;
        if reached % 2 == 1 {
            let child = number.with_counter(reached << next);
            return (
                next,
                Turn {
                    goes: true,
                    block: child.low_bytes(),
                },
            );
        }
    }
    (0, PAUSE)
}

/// Goes on to the next node of each lane, and says whether any lane had one. A lane stands at a
/// place of its counter, and its turn is what it goes on with.
pub(crate) fn advance(numbers: &[Ksn], places: &mut [u32; WIDTH], turns: &mut [Turn; WIDTH]) -> bool
    requires few { length numbers.now ≤ WIDTH }
    requires places { (i : ℕ) → i < length numbers.now → slice_index places.old i ≤ 21 }
    ensures next { (i : ℕ) → i < length numbers.now
        → IsNext (number_at numbers.now i) (slice_index places.old i) (slice_index places.new i)
        (turn_at turns.new i) }
    ensures any { result ≡ false → (i : ℕ) → i < length numbers.now
        → (turn_at turns.new i).goes ≡ false }
{
    let mut any = false;
    for (i, number) in numbers.iter().enumerate() {
        let (place, turn) = next_node(*number, places[i]);
        places[i] = place;
        turns[i] = turn;
        any |= turn.goes;
    }
    any
}
