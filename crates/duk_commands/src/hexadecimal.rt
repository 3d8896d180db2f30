//! Bytes that an argument writes in hexadecimal.

ghost use Rattle.std.specs.Prelude.{◌≡◌, ◌⊎◌, ℕ, List, IfErr, IfOk};
ghost use Rattle.duk_block.specs.Hexadecimal.{IsHexadecimal};
ghost use Rattle.duk_commands.specs.declared.fault.Fault.TheVariants.{OutOfMemory};

use crate::fault::Fault;
use hex::FromHexError;
use std::alloc::Global;

/// The bytes that a text writes, two digits of either case each. Refused with `wrong` where it
/// writes none, and else with `OutOfMemory` where memory is refused.
pub(crate) fn decode(alloc: Global, text: &[u8], wrong: Fault) -> Result<Vec<u8>, Fault>
    ensures read { IfOk result (λ bytes. IsHexadecimal text.now bytes.items) }
    ensures refused { IfErr result (λ why. (why ≡ OutOfMemory)
        ⊎ ((why ≡ wrong) × ((bytes : List ℕ) → ¬ IsHexadecimal text.now bytes))) }
{
    match hex::decode(alloc, text) {
        Ok(bytes) => Ok(bytes),
        Err(FromHexError::OutOfMemory) => Err(Fault::OutOfMemory),
        Err(_) => Err(wrong),
    }
}
