//! For how many terminals keys are to be issued.

ghost use Rattle.std.specs.Prelude.{ℕ, IfNone, IfSome};
ghost use Rattle.duk_commands.specs.Order.{IsCountFrom};

use crate::count::read_decimal;
use crate::issue::serial::is_within;
use duk_tree::Iksn;

/// For how many terminals keys may be issued at once: as many as a key set has.
const MOST_TERMINALS: u32 = 524_288;

/// Reads for how many terminals, from the first number on, as far as its key set goes.
pub(crate) fn read_count(first: Iksn, text: &str) -> Option<u32>
    ensures found { IfSome result (IsCountFrom first text.now) }
    ensures none { IfNone result ((count : ℕ) → ¬ IsCountFrom first text.now count) }
{
    let count = read_decimal(text, MOST_TERMINALS)?;
    if count >= 1 && is_within(first, count - 1) {
        Some(count)
    } else {
        None
    }
}
