//! Texts of any bytes, shown so that each stays on its line.

ghost use Rattle.std.specs.Prelude.{◌≡◌, ◌+◌, ◌*◌, ◌≤◌, ◌++◌, length};
ghost use Rattle.arrayvec.specs.ArrayVec.{array_vec_len};
ghost use Rattle.duk_commands.specs.Lines.{text_line};
ghost use Rattle.duk_show.specs.ShownText.{is_printable, shown_byte, shown_text};

use duk_commands::{LINES_ROOM, Lines, push_end, push_text};
use duk_io::append_hex;

/// The most characters that show a byte.
pub(crate) const MOST_SHOWN: usize = 4;

/// Appends the line that names a text of any bytes: the name, a space, the text as it is shown and
/// LF.
pub(crate) fn push_shown_line(lines: &mut Lines, name: &[u8], text: &[u8])
    requires { array_vec_len lines.old + length name.now + MOST_SHOWN * length text.now + 2
        ≤ LINES_ROOM }
    ensures line { lines.new.items
        ≡ lines.old.items ++ text_line name.now (shown_text text.now) }
    ensures len { array_vec_len lines.new
        ≤ array_vec_len lines.old + length name.now + MOST_SHOWN * length text.now + 2 }
{
    push_text(lines, name);
    push_text(lines, b" ");
    push_shown(lines, text);
    push_end(lines);
}

/// Appends a text as it is shown.
fn push_shown(lines: &mut Lines, text: &[u8])
    requires { array_vec_len lines.old + MOST_SHOWN * length text.now ≤ LINES_ROOM }
    ensures text { lines.new.items ≡ lines.old.items ++ shown_text text.now }
    ensures len { array_vec_len lines.new
        ≤ array_vec_len lines.old + MOST_SHOWN * length text.now }
{
    for byte in text {
        push_byte(lines, *byte);
    }
}

/// Appends a byte as it is shown.
fn push_byte(lines: &mut Lines, byte: u8)
    requires { array_vec_len lines.old + MOST_SHOWN ≤ LINES_ROOM }
    ensures text { lines.new.items ≡ lines.old.items ++ shown_byte byte }
    ensures len { array_vec_len lines.new ≤ array_vec_len lines.old + MOST_SHOWN }
{
    if byte == b'\\' {
        push_text(lines, b"\\\\");
    } else if is_printable(byte) {
        push_text(lines, &[byte]);
    } else {
        push_text(lines, b"\\x");
        append_hex(lines, &[byte]);
    }
}

/// Whether a byte is a printable character of ASCII.
fn is_printable(byte: u8) -> bool
    ensures { result ≡ is_printable byte }
{
    (0x20..=0x7E).contains(&byte)
}
