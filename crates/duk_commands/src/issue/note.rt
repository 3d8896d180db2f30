//! How many numbers were passed over.

ghost use Rattle.std.specs.Prelude.{◌≡◌};
ghost use Rattle.duk_commands.specs.IssuedLines.{passed_over_line};
ghost use Rattle.duk_io.specs.Sink.{IsTried};

use crate::answer::tell;
use crate::lines::{Lines, push_end, push_text};
use duk_io::Sink;
use itoa::Buffer;

/// Writes on `fault` how many numbers of an order were passed over, as `passed over N`. What cannot
/// be written of the line is lost.
pub fn note_passed_over<F: Sink>(fault: &mut F, count: u32)
    ensures { IsTried (F.known fault.old) (F.known fault.new) (passed_over_line count) }
{
    tell(fault, line_of(count).as_slice());
}

/// The line.
fn line_of(count: u32) -> Lines
    ensures { result.items ≡ passed_over_line count }
{
    let mut digits = Buffer::new();
    let mut line = Lines::new();
    push_text(&mut line, b"passed over ");
    push_text(&mut line, digits.format(count).as_bytes());
    push_end(&mut line);
    line
}
