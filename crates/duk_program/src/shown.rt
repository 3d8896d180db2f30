//! What stands in place of a request: help, a refusal of the arguments, or want of memory.

ghost use Rattle.std.specs.Prelude.{◌≡◌, ◌⊎◌, ℕ, List};
ghost use Rattle.std.specs.Io.KnownBytes.{Keeps};
ghost use Rattle.duk_program.specs.Asked.{AreRefused, IsNoRequestOf};
ghost use Rattle.duk_commands.specs.Answer.{streams};
ghost use Rattle.duk_commands.specs.Fault.{report_line};
ghost use Rattle.duk_commands.specs.HandedOn.{HasHandedOn, HasLost};
ghost use Rattle.duk_commands.specs.declared.fault.Fault.{Fault};
ghost use Rattle.duk_io.specs.Sink.{IsCut, IsHandedOn, IsTried, IsUntouched, IsWritten};
ghost use Rattle.duk_program.specs.Program.{HasShown, IsBegun, IsNotShown};
ghost use Rattle.duk_program.specs.Status.{IsStatus};

use crate::command_line::NoRequest;
use duk_commands::{Fault, hand_on, tell};
use duk_io::{Sink, WriteFailed, write_text};

/// Writes what stands in place of a request, hands it on, and gives the status.
pub(crate) fn show<W: Sink, F: Sink>(answer: &NoRequest, output: &mut W, fault: &mut F) -> u8
    ensures status { IsStatus result }
    ensures handed_on { result ≡ 0 → IsHandedOn (W.held_back output.new) }
    ensures refused { result ≡ 2
        → Keeps (W.known output.old).contents (W.known output.new).contents }
    ensures arguments_refused { (arguments : List (List ℕ)) → IsNoRequestOf arguments answer.now
        → result ≡ 2 → AreRefused arguments }
    ensures shown { (arguments : List (List ℕ)) → IsNoRequestOf arguments answer.now → result ≡ 0
        → HasShown arguments (streams (W.known output.old) (W.known output.new)
        (F.known fault.old) (F.known fault.new)) }
    ensures not_shown { (arguments : List (List ℕ)) → IsNoRequestOf arguments answer.now → result ≡ 1
        → IsNotShown arguments (streams (W.known output.old) (W.known output.new)
        (F.known fault.old) (F.known fault.new)) }
{
    duk_io::laws::writes();
    match answer {
        NoRequest::NoMemory => {
            tell(fault, Fault::OutOfMemory.line().as_slice());
            1
        }
        NoRequest::Refused(text) => {
            tell(fault, text.as_bytes());
            2
        }
        NoRequest::Help(text) => show_help(text.as_bytes(), output, fault),
    }
}

/// Writes a text that was asked for, hands it on, and gives the status: 0, or 1 with the line `write
/// failed` on `fault`.
fn show_help<W: Sink, F: Sink>(text: &[u8], output: &mut W, fault: &mut F) -> u8
    ensures status { (result ≡ 0) ⊎ (result ≡ 1) }
    ensures handed_on { result ≡ 0 → IsHandedOn (W.held_back output.new) }
    ensures shown { result ≡ 0 → HasHandedOn
        (λ written. IsWritten (W.known output.old) written text.now) (W.known output.new)
        × IsUntouched (F.known fault.old) (F.known fault.new) }
    ensures not_shown { result ≡ 1
        → (HasHandedOn (λ written. IsCut (W.known output.old) written text.now) (W.known output.new)
        ⊎ HasLost (IsBegun text.now (W.known output.old)) (W.known output.new))
        × IsTried (F.known fault.old) (F.known fault.new) (report_line Fault.WriteFailed) }
{
    duk_io::laws::writes();
    let ended = write_text(output, text);
    match hand_on(ended, WriteFailed, output) {
        Ok(()) => 0,
        Err(_) => {
            tell(fault, Fault::WriteFailed.line().as_slice());
            1
        }
    }
}
