//! Unwrapping an optional block.

ghost use Rattle.std.specs.Prelude.{◌≡◌, ◌↔◌, ℕ, List, IfOk, IsOk, MatchOption};
ghost use Rattle.std.specs.List.{All};
ghost use Rattle.duk_tdes.specs.Tdes.{IsTdesLength};
ghost use Rattle.duk_block.specs.declared.header.Header.{Header};
ghost use Rattle.duk_block.specs.Faults.{IsFirstFault};
ghost use Rattle.duk_block.specs.KeyBlock.{Wraps};
ghost use Rattle.duk_block.specs.Optional.{HasOtherId, IsFirstContent};

use crate::fault::BlockFault;
use crate::laws;
use crate::optional::first_content;
use crate::unwrapping::{header_of, unwrap};
use duk_tdes::Key;

/// The content of the first optional block with this id, in a key block under the key block
/// protection key: what stands after the id and the two digits of the length. There is none where
/// no optional block has the id. `N` is 16 or 24.
///
/// The text is refused as `unwrap` refuses it.
pub fn unwrap_optional<'a, const N: usize>(
    kbpk: &Key<N>,
    text: &'a [u8],
    id: [u8; 2],
) -> Result<Option<&'a [u8]>, BlockFault>
    requires { IsTdesLength N }
    ensures content { (header : Header) (key : List ℕ)
        (wraps : Wraps kbpk.now text.now header key)
        → IfOk result (λ found.
        MatchOption found (All (HasOtherId id) wraps.block.optional_blocks)
        (λ content. IsFirstContent wraps.block.optional_blocks id content.now)) }
    ensures ok { IsOk result
        ↔ ((header : Header) × (key : List ℕ) × Wraps kbpk.now text.now header key) }
    ensures refused { (fault : BlockFault)
        → (result ≡ Err fault) ↔ IsFirstFault text.now kbpk.now fault }
{
    duk_tdes::laws::tdes_key(kbpk);
    laws::no_fault();
    unwrap(kbpk, text)?;
    let (_, count) = header_of(text)?;
    Ok(first_content(count, &text[16..], id))
}
