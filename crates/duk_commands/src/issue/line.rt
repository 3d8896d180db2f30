//! The line of one terminal.

ghost use Rattle.std.specs.Prelude.{◌≡◌, ℕ, List};
ghost use Rattle.duk_commands.specs.IssuedLines.{issued_line};
ghost use Rattle.duk_mac.specs.CheckValue.{check_value_of};

use crate::lines::{Lines, push_end, push_text};
use duk_group::KEY_BLOCK;
use duk_io::append_hex;
use duk_tree::Iksn;

/// The line of an initial key, of its number, its key block and its check value.
pub(crate) fn line_of(iksn: Iksn, block: &[u8; KEY_BLOCK], value: &[u8; 3]) -> Lines
    ensures { (key : List ℕ) → value.now ≡ check_value_of key
        → result.items ≡ issued_line iksn block.now key }
{
    let mut line = Lines::new();
    push_text(&mut line, b"issued ");
    append_hex(&mut line, &iksn.bytes());
    push_text(&mut line, b" ");
    push_text(&mut line, block);
    push_text(&mut line, b" ");
    append_hex(&mut line, value);
    push_end(&mut line);
    line
}
