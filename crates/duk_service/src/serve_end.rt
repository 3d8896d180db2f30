//! The end of a service: the answers that its output still holds back are handed on.

ghost use Rattle.std.specs.Prelude.{IfErr, OnOk};
ghost use Rattle.duk_io.specs.Sink.{IsHandedOn};
ghost use Rattle.duk_service.specs.inner.Serve.{IsEndOfService};
ghost use Rattle.duk_service.specs.ServeFault.{IsLossIn};

use crate::left_records::RecordFormat;
use crate::serve_fault::{ServeFault, is_of_store};
use duk_host::HostFault;
use duk_io::Sink;

/// Hands on what `output` still holds back of the answers, and gives how the service ended, by how
/// its host did. Where they are lost, that is told in place of any fault but one of the log or the
/// journal, and behind that.
pub(crate) fn end_service<W: Sink>(
    format: RecordFormat,
    ended: Result<(), HostFault>,
    output: &mut W,
) -> Result<(), ServeFault>
    ensures end { IsEndOfService format ended result (W.known output.old) (W.known output.new) }
    ensures handed_on { OnOk result (IsHandedOn (W.held_back output.new)) }
    ensures handed_on_at_fault { IfErr result
        (IsLossIn (IsHandedOn (W.held_back output.new))) }
{
    let is_lost = output.flush().is_err();
    match ended {
        Ok(()) if is_lost => Err(ServeFault::Host(format, HostFault::Write)),
        Ok(()) => Ok(()),
        Err(why) if is_lost && is_of_store(why) => Err(ServeFault::StoreAndAnswers(format)),
        Err(_) if is_lost => Err(ServeFault::Host(format, HostFault::Write)),
        Err(why) => Err(ServeFault::Host(format, why)),
    }
}
