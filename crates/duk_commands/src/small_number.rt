//! Small numbers in decimal.

ghost use Rattle.std.specs.Prelude.{◌≡◌, ◌+◌, ◌<◌, ◌≤◌, ◌++◌, decimal};
ghost use Rattle.arrayvec.specs.ArrayVec.{array_vec_len};

use crate::lines::{LINES_ROOM, Lines};

/// Appends a number below 100 in decimal.
#[tactic(auto, using(crate::proofs::SmallNumbers::small_numbers))]
pub(crate) fn push_small(lines: &mut Lines, number: u32)
    requires room { array_vec_len lines.old + 2 ≤ LINES_ROOM }
    requires small { number < 100 }
    ensures digits { lines.new.items ≡ lines.old.items ++ decimal number }
    ensures len { array_vec_len lines.new ≤ array_vec_len lines.old + 2 }
{
    if number < 10 {
        lines.push(b'0' + number as u8);
        return;
    }
    lines.push(b'0' + (number / 10) as u8);
    lines.push(b'0' + (number % 10) as u8);
}
