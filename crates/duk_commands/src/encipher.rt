//! The command `data`: data enciphered by TDES-CBC, or deciphered.

ghost use Rattle.std.specs.Prelude.{◌≡◌, ◌⊎◌, ◌%◌, ◌≤◌, ◌↔◌, ℕ, List, IfErr, IfOk, IsTrue, MatchOption, codes, length};
ghost use Rattle.std.specs.Option.{option_copied};
ghost use Rattle.duk_commands.specs.Lines.{named_line};
ghost use Rattle.duk_commands.specs.declared.fault.Fault.TheVariants.{OutOfMemory, TextRefused};
ghost use Rattle.duk_tdes.specs.KeyBytes.{bytes_of};
ghost use Rattle.duk_commands.specs.Encipher.{AreBlocks, IsDataRefused, IsDataText, IsVector, data_arguments, made_of};
ghost use Rattle.duk_commands.specs.Mac.{IsMessage};

use crate::fault::Fault;
use crate::hexadecimal::decode;
use crate::lines::{Lines, push_line};
use crate::pin_blocks::read_block;
use duk_tdes::{KeyBytes, cbc_decrypt, cbc_encrypt};
use std::alloc::Global;

/// How many bytes there are at most: 255 blocks, whose digits the lines have room for.
const MOST_BYTES: usize = 2040;

/// The line of what a text becomes under a key by TDES-CBC (NIST SP 800-38A): enciphered, or with
/// `decipher` deciphered. The text is bytes, or with `hex` or `decipher` the digits that write them
/// in hexadecimal. It has whole blocks, since nothing is padded. Without an initial vector that is zeros.
///
/// The faults, in this order: `block refused` (the initial vector is not 16 digits); `key refused`
/// (not 32 or 48 digits); `text refused` (no pairs of digits where it is to be hexadecimal, or not 1
/// to 255 whole blocks of 8 bytes). Memory for the text may be refused.
pub fn data_lines(
    alloc: Global,
    key: &str,
    text: &[u8],
    iv: Option<&str>,
    decipher: bool,
    hex: bool,
) -> Result<Lines, Fault>
    ensures lines { IfOk result (λ lines. IsDataText
        (data_arguments key.now text.now (option_copied iv.entry) decipher hex) lines.items) }
    ensures refused { IfErr result (IsDataRefused
        (data_arguments key.now text.now (option_copied iv.entry) decipher hex)) }
{
    let vector = read_vector(iv).ok_or(Fault::PinBlockRefused)?;
    let key = KeyBytes::parse(key).ok_or(Fault::KeyRefused)?;
    let mut bytes = read_blocks(alloc, text, decipher || hex)?;
    make(&key, vector, decipher, bytes.as_mut_slice());
    Ok(line_of_data(bytes.as_slice()))
}

/// The initial vector: zeros, or the block that 16 hexadecimal digits write.
fn read_vector(iv: Option<&str>) -> Option<[u8; 8]>
    ensures { MatchOption result
        ((vector : List ℕ) → ¬ IsVector (option_copied iv.entry) vector)
        (IsVector (option_copied iv.entry)) }
{
    match iv {
        None => Some([0; 8]),
        Some(text) => read_block(text),
    }
}

/// The whole blocks that a text is, or that it writes in hexadecimal.
fn read_blocks(alloc: Global, text: &[u8], hex: bool) -> Result<Vec<u8>, Fault>
    ensures read { IfOk result (λ bytes. IsMessage hex text.now bytes.items) }
    ensures blocks { IfOk result (λ bytes. AreBlocks bytes.items) }
    ensures refused { IfErr result (λ why. (why ≡ OutOfMemory) ⊎ ((why ≡ TextRefused)
        × ((bytes : List ℕ) → IsMessage hex text.now bytes → ¬ AreBlocks bytes))) }
{
    let bytes = read_bytes(alloc, text, hex)?;
    if !are_blocks(bytes.as_slice()) {
        return Err(Fault::TextRefused);
    }
    Ok(bytes)
}

/// The bytes of a text, or those that it writes in hexadecimal.
fn read_bytes(alloc: Global, text: &[u8], hex: bool) -> Result<Vec<u8>, Fault>
    ensures read { IfOk result (λ bytes. IsMessage hex text.now bytes.items) }
    ensures refused { IfErr result (λ why. (why ≡ OutOfMemory) ⊎ ((why ≡ TextRefused)
        × ((bytes : List ℕ) → ¬ IsMessage hex text.now bytes))) }
{
    if hex {
        return decode(alloc, text, Fault::TextRefused);
    }
    Vec::from_slice(alloc, text).map_err(|_| Fault::OutOfMemory)
}

/// Whether these are 1 to 255 whole blocks.
fn are_blocks(bytes: &[u8]) -> bool
    ensures { IsTrue result ↔ AreBlocks bytes.now }
{
    !bytes.is_empty() && bytes.len() <= MOST_BYTES && bytes.len() % 8 == 0
}

/// Enciphers whole blocks in place under a key of either length, or deciphers them.
fn make(key: &KeyBytes, vector: [u8; 8], decipher: bool, bytes: &mut [u8])
    requires { length bytes.old % 8 ≡ 0 }
    ensures made { bytes.new ≡ made_of decipher (bytes_of key.now) vector bytes.old }
    ensures length { length bytes.new ≡ length bytes.old }
{
    match key {
        KeyBytes::Double(key) if decipher => cbc_decrypt(key, vector, bytes),
        KeyBytes::Triple(key) if decipher => cbc_decrypt(key, vector, bytes),
        KeyBytes::Double(key) => cbc_encrypt(key, vector, bytes),
        KeyBytes::Triple(key) => cbc_encrypt(key, vector, bytes),
    }
}

/// The line of what was made.
fn line_of_data(bytes: &[u8]) -> Lines
    requires { length bytes.now ≤ MOST_BYTES }
    ensures { result.items ≡ named_line (codes "data") bytes.now }
{
    let mut lines = Lines::new();
    push_line(&mut lines, b"data", bytes);
    lines
}
