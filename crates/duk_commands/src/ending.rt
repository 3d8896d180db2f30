//! The end of a command: what its output still holds back is handed on.

ghost use Rattle.std.specs.Prelude.{◌≡◌, ◌⊎◌, IfErr, OnOk};
ghost use Rattle.duk_commands.specs.HandedOn.{IsEndOf};
ghost use Rattle.duk_io.specs.Sink.{IsHandedOn};

use duk_io::Sink;

/// Hands on what the output of a command still holds back, and gives how the command ended: as it
/// did, or with `lost` where that fails, since what was written may be missing then.
pub fn hand_on<T: Drop, E: Drop, W: Sink>(
    ended: Result<T, E>,
    lost: E,
    output: &mut W,
) -> Result<T, E>
    ensures end { IsEndOf ended lost result (W.known output.old) (W.known output.new) }
    ensures handed_on { OnOk result (IsHandedOn (W.held_back output.new)) }
    ensures handed_on_at_fault { IfErr result
        (λ why. IsHandedOn (W.held_back output.new) ⊎ (why ≡ lost)) }
{
    match output.flush() {
        Ok(()) => ended,
        Err(_) => Err(lost),
    }
}
