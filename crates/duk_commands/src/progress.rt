//! What a long search tells while it goes on.

ghost use Rattle.std.specs.Prelude.{◌≡◌, ◌+◌, ◌<◌, ◌≤◌, IfSome, length};
ghost use Rattle.duk_commands.specs.Progress.{progress_line, progress_step, step_of};
ghost use Rattle.duk_commands.specs.inner.Search.{IsProgressTold};
ghost use Rattle.duk_io.specs.Known.{Known};
ghost use Rattle.duk_io.specs.Sink.{IsTried};

use crate::answer::tell;
use crate::lines::{Lines, push_end, push_text};
use crate::sought::Sought;
use duk_io::Sink;
use itoa::Buffer;

/// After how many numbers, each time, a search for this tells its progress, where it does.
fn progress_step(sought: &Sought) -> Option<u32>
    ensures step { result ≡ progress_step sought.now }
    ensures some { IfSome result (λ step. 0 < step) }
{
    match sought {
        Sought::Mac { message, .. } => Some(step_of(message.as_slice())),
        _ => None,
    }
}

/// How many numbers are tried in about a second, where each of their keys makes two MACs of this
/// text.
fn step_of(text: &[u8]) -> u32
    ensures step { result ≡ step_of (length text.now) }
    ensures some { 0 < result }
{
    (3_000_000 / (24 + text.len())).max(1) as u32
}

/// Before another number is tried, tells on `fault` that so many were tried without success, where
/// they are a whole number of steps. What cannot be written of the line is lost.
pub(crate) fn tell_progress<F: Sink>(sought: &Sought, tried: u32, most: u32, fault: &mut F)
    ensures { (begin : Known)
        → IsProgressTold sought.now most tried begin (F.known fault.old)
        → IsProgressTold sought.now most (tried + 1) begin (F.known fault.new) }
{
    match progress_step(sought) {
        Some(step) if tried > 0 && tried % step == 0 => tell_line(tried, most, fault),
        _ => {}
    }
}

/// Writes the line of progress.
fn tell_line<F: Sink>(tried: u32, most: u32, fault: &mut F)
    ensures { IsTried (F.known fault.old) (F.known fault.new) (progress_line most tried) }
{
    tell(fault, line_of(tried, most).as_slice());
}

/// The line of progress.
fn line_of(tried: u32, most: u32) -> Lines
    ensures { result.items ≡ progress_line most tried }
{
    let mut digits = Buffer::new();
    let mut line = Lines::new();
    push_text(&mut line, b"tried ");
    push_text(&mut line, digits.format(tried).as_bytes());
    push_text(&mut line, b" of ");
    push_text(&mut line, digits.format(most).as_bytes());
    push_end(&mut line);
    line
}
