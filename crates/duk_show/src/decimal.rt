//! Numbers in decimal.

ghost use Rattle.std.specs.Prelude.{◌≡◌, ◌+◌, ◌≤◌, ◌++◌, decimal, length};
ghost use Rattle.arrayvec.specs.ArrayVec.{array_vec_len};
ghost use Rattle.duk_commands.specs.Lines.{text_line};

use duk_commands::{LINES_ROOM, Lines, push_end, push_text};
use itoa::Buffer;

/// The most digits of a number of 64 bits.
pub(crate) const MOST_DIGITS: usize = 20;

/// Appends a number in decimal.
pub(crate) fn push_decimal(lines: &mut Lines, number: usize)
    requires { array_vec_len lines.old + MOST_DIGITS ≤ LINES_ROOM }
    ensures digits { lines.new.items ≡ lines.old.items ++ decimal number }
    ensures len { array_vec_len lines.new ≤ array_vec_len lines.old + MOST_DIGITS }
{
    let mut digits = Buffer::new();
    push_text(lines, digits.format(number).as_bytes());
}

/// The most digits of a number of 128 bits.
pub(crate) const MOST_AMOUNT_DIGITS: usize = 40;

/// Appends a sum of amounts in decimal.
pub(crate) fn push_amount(lines: &mut Lines, amount: u128)
    requires { array_vec_len lines.old + MOST_AMOUNT_DIGITS ≤ LINES_ROOM }
    ensures digits { lines.new.items ≡ lines.old.items ++ decimal amount }
    ensures len { array_vec_len lines.new ≤ array_vec_len lines.old + MOST_AMOUNT_DIGITS }
{
    let mut digits = Buffer::new();
    push_text(lines, digits.format(amount).as_bytes());
}

/// Appends the line that names a number: the name, a space, the number in decimal and LF.
pub(crate) fn push_number_line(lines: &mut Lines, name: &[u8], number: usize)
    requires { array_vec_len lines.old + length name.now + MOST_DIGITS + 2 ≤ LINES_ROOM }
    ensures line { lines.new.items ≡ lines.old.items ++ text_line name.now (decimal number) }
    ensures len { array_vec_len lines.new
        ≤ array_vec_len lines.old + length name.now + MOST_DIGITS + 2 }
{
    push_text(lines, name);
    push_text(lines, b" ");
    push_decimal(lines, number);
    push_end(lines);
}
