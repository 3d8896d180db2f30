//! Unwrapping a key for a use.

ghost use Rattle.std.specs.Prelude.{IfOk, IfErr};
ghost use Rattle.duk_tdes.specs.KeyBytes.{bytes_of};
ghost use Rattle.duk_tdes.specs.Tdes.{IsTdesLength};
ghost use Rattle.duk_block.specs.KeyBlock.{WrapsFor};
ghost use Rattle.duk_block.specs.KeyUse.{HasNoKeyFor, IsDoubleKeyFor, IsKeyFor};

use crate::fault::KeyFault;
use crate::key_use::KeyUse;
use crate::unwrapping::unwrap;
use duk_tdes::{Key, KeyBytes};

/// The key of 16 or 24 bytes in a key block under the key block protection key, where its header
/// allows this use. `N` is 16 or 24.
///
/// Refused with `Block`, where the text is no key block, and then with `WrongUse`.
pub fn unwrap_for<const N: usize>(
    key_use: KeyUse,
    kbpk: &Key<N>,
    text: &[u8],
) -> Result<KeyBytes, KeyFault>
    requires { IsTdesLength N }
    ensures found { IfOk result
        (λ key. WrapsFor (IsKeyFor key_use) kbpk.now text.now (bytes_of key)) }
    ensures refused { IfErr result (HasNoKeyFor (IsKeyFor key_use) kbpk.now text.now) }
{
    let (header, key) = unwrap(kbpk, text).map_err(KeyFault::Block)?;
    if key_use.allows(&header) {
        Ok(key)
    } else {
        Err(KeyFault::WrongUse)
    }
}

/// The key of 16 bytes in a key block under the key block protection key, where its header allows
/// this use. `N` is 16 or 24.
///
/// Refused with `Block`, where the text is no key block, and then with `WrongUse`, also where the
/// key has 24 bytes.
pub fn unwrap_double_for<const N: usize>(
    key_use: KeyUse,
    kbpk: &Key<N>,
    text: &[u8],
) -> Result<Key<16>, KeyFault>
    requires { IsTdesLength N }
    ensures found { IfOk result (WrapsFor (IsDoubleKeyFor key_use) kbpk.now text.now) }
    ensures refused { IfErr result (HasNoKeyFor (IsDoubleKeyFor key_use) kbpk.now text.now) }
{
    let (header, key) = unwrap(kbpk, text).map_err(KeyFault::Block)?;
    match key {
        KeyBytes::Double(key) if key_use.allows(&header) => Ok(key),
        _ => Err(KeyFault::WrongUse),
    }
}
