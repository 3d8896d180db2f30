//! Lines of output: those that name some bytes, in upper-case hexadecimal, and those that name a
//! text.

ghost use Rattle.std.specs.Prelude.{◌≡◌, ◌+◌, ◌*◌, ◌++◌, ◌≤◌, ◌<◌, length};
ghost use Rattle.arrayvec.specs.ArrayVec.{array_vec_len};
ghost use Rattle.duk_commands.specs.Fault.{line_end};
ghost use Rattle.duk_commands.specs.Lines.{named_line, text_line};

use arrayvec::ArrayVec;
use duk_io::append_hex;

/// How many bytes the lines of a command may have, where they are known before any is written.
pub const LINES_ROOM: usize = 4096;

/// The lines of a command.
pub type Lines = ArrayVec<u8, LINES_ROOM>;

/// Appends a text.
pub fn push_text(lines: &mut Lines, text: &[u8])
    requires { array_vec_len lines.old + length text.now ≤ LINES_ROOM }
    ensures text { lines.new.items ≡ lines.old.items ++ text.now }
    ensures len { array_vec_len lines.new ≡ array_vec_len lines.old + length text.now }
{
    lines.try_extend_from_slice(text).unwrap();
}

/// Appends the end of a line.
pub fn push_end(lines: &mut Lines)
    requires { array_vec_len lines.old < LINES_ROOM }
    ensures end { lines.new.items ≡ lines.old.items ++ line_end }
    ensures len { array_vec_len lines.new ≡ array_vec_len lines.old + 1 }
{
    lines.push(b'\n');
}

/// Appends the line that names some bytes: the name, a space, two digits for each byte and LF.
pub fn push_line(lines: &mut Lines, name: &[u8], bytes: &[u8])
    requires { array_vec_len lines.old + length name.now + 2 * length bytes.now + 2 ≤ LINES_ROOM }
    ensures line { lines.new.items ≡ lines.old.items ++ named_line name.now bytes.now }
    ensures len { array_vec_len lines.new
        ≡ array_vec_len lines.old + length name.now + 2 * length bytes.now + 2 }
{
    push_text(lines, name);
    lines.push(b' ');
    append_hex(lines, bytes);
    push_end(lines);
}

/// Appends the line that names a text: the name, a space, the text and LF.
pub fn push_text_line(lines: &mut Lines, name: &[u8], text: &[u8])
    requires { array_vec_len lines.old + length name.now + length text.now + 2 ≤ LINES_ROOM }
    ensures line { lines.new.items ≡ lines.old.items ++ text_line name.now text.now }
    ensures len { array_vec_len lines.new
        ≡ array_vec_len lines.old + length name.now + length text.now + 2 }
{
    push_text(lines, name);
    lines.push(b' ');
    push_text(lines, text);
    push_end(lines);
}
