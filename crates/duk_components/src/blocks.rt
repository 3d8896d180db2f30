//! The key block of a key under a local master key, of which the components are given.

ghost use Rattle.std.specs.Prelude.{◌≡◌, ◌⊎◌, ◌+◌, ◌++◌, ◌≤◌, IfErr, IfOk, codes, length, map, string_bytes};
ghost use Rattle.arrayvec.specs.ArrayVec.{array_vec_len};
ghost use Rattle.hex.specs.Hex.{encode_upper};
ghost use Rattle.duk_commands.specs.Wrap.{IsWrapRefused, IsWrapText};
ghost use Rattle.duk_commands.specs.declared.fault.Fault.TheVariants.{OutOfMemory};
ghost use Rattle.duk_components.specs.Blocks.{IsBlockRefused, IsBlockText, wrap_under, wrapped};
ghost use Rattle.duk_tdes.specs.KeyBytes.{bytes_of};

use crate::components::push_values;
use crate::fault::ComponentFault;
use duk_commands::{Fault, LINES_ROOM, Lines, push_text, wrap_line};
use duk_tdes::KeyBytes;
use std::alloc::{AllocError, Global};

/// The lines of `lmk_lines`, and behind them `block BLOCK`: the key block of a key under the local
/// master key that the components make. `key`, `fields` and `pad` are those of `wrap`. Neither key is
/// written.
///
/// The faults, in this order: those of `lmk_lines`, and then in `Wrap` those of `wrap`. Memory may be
/// refused.
pub fn block_lines(
    alloc: Global,
    texts: &[&str],
    key: &str,
    fields: &str,
    pad: &str,
) -> Result<Lines, ComponentFault>
    ensures lines { IfOk result (λ lines. IsBlockText (map (λ text. text.now) texts.now)
        (wrapped key.now fields.now pad.now) lines.items) }
    ensures refused { IfErr result (IsBlockRefused (map (λ text. text.now) texts.now)
        (wrapped key.now fields.now pad.now)) }
{
    let mut lines = Lines::new();
    let lmk = match push_values(texts, &mut lines) {
        Ok(lmk) => lmk,
        Err(why) => return Err(why),
    };
    match block_under(alloc, &lmk, key, fields, pad) {
        Ok(block) => {
            push_block(&mut lines, block.as_slice());
            Ok(lines)
        }
        Err(why) => Err(ComponentFault::Wrap(why)),
    }
}

/// The line of the key block under a protection key.
fn block_under(
    alloc: Global,
    protection_key: &KeyBytes,
    key: &str,
    fields: &str,
    pad: &str,
) -> Result<Lines, Fault>
    ensures block { IfOk result (λ block. IsWrapText
        (wrap_under (bytes_of protection_key.now) (wrapped key.now fields.now pad.now)) block.items) }
    ensures refused { IfErr result (λ why. (why ≡ OutOfMemory) ⊎ IsWrapRefused
        (wrap_under (bytes_of protection_key.now) (wrapped key.now fields.now pad.now)) why) }
{
    match digits_of(alloc, protection_key) {
        Ok(digits) => wrap_line(digits.as_str(), fields, key, pad),
        Err(_) => Err(Fault::OutOfMemory),
    }
}

/// The hexadecimal digits of a key.
fn digits_of(alloc: Global, key: &KeyBytes) -> Result<String, AllocError>
    ensures { IfOk result (λ text. string_bytes text ≡ encode_upper (bytes_of key.now)) }
{
    match key {
        KeyBytes::Double(key) => hex::encode_upper(alloc, key.bytes()),
        KeyBytes::Triple(key) => hex::encode_upper(alloc, key.bytes()),
    }
}

/// Appends the line of a key block.
fn push_block(lines: &mut Lines, block: &[u8])
    requires { array_vec_len lines.old + 6 + length block.now ≤ LINES_ROOM }
    ensures { lines.new.items ≡ lines.old.items ++ codes "block " ++ block.now }
{
    push_text(lines, b"block ");
    push_text(lines, block);
}
