//! The transaction keys of many key serial numbers at once, a group of them in lanes.

ghost use Rattle.std.specs.Prelude.{◌≡◌, ◌<◌, ◌≤◌, ◌*◌, ◌/◌, ◌%◌, ℕ, length};
ghost use Rattle.duk_group.specs.Numbers.{bytes_at, number_at};
ghost use Rattle.duk_tree.specs.Derivation.{derived_key_of};
ghost use Rattle.duk_tree.specs.Serial.{serial_of_bytes};
ghost use Rattle.duk_calls.specs.Answer.{part_at};
ghost use Rattle.duk_calls.specs.Keys.{DeriveManyAnswers};

use crate::arguments::{double_key, serial_number};
use crate::fault::Fault;
use duk_group::WIDTH;
use duk_tdes::Key;
use duk_tree::Ksn;

/// Writes the transaction keys of key serial numbers (10 bytes each), under one base derivation key
/// (16 bytes), in their order, in the front of a slice of at least 16 bytes for each of them. The
/// counters may be any, as those of `derive`.
///
/// Refused with `Length`.
pub fn derive_many(bdk: &[u8], ksns: &[u8], keys: &mut [u8]) -> Result<(), Fault>
    ensures { DeriveManyAnswers bdk.now ksns.now keys.old keys.new result }
{
    let count = ksns.len() / 10;
    if bdk.len() != 16 || ksns.len() % 10 != 0 || keys.len() / 16 < count {
        return Err(Fault::Length);
    }
    let bdk = double_key(bdk);
    let mut done = 0;
    while done < count {
        let end = done + (count - done).min(WIDTH);
        write_group(
            &bdk,
            &ksns[10 * done..10 * end],
            &mut keys[16 * done..16 * end],
        );
        done = end;
    }
    Ok(())
}

/// Writes the transaction keys of at most as many key serial numbers as there are lanes.
fn write_group(bdk: &Key<16>, ksns: &[u8], keys: &mut [u8])
    requires whole { length ksns.now % 10 ≡ 0 }
    requires few { length ksns.now / 10 ≤ WIDTH }
    requires room { length keys.old ≡ 16 * (length ksns.now / 10) }
    ensures { (i : ℕ) → i < length ksns.now / 10 → part_at 16 keys.new i
        ≡ derived_key_of bdk.now (serial_of_bytes (part_at 10 ksns.now i)) }
{
    let count = ksns.len() / 10;
    let numbers = serial_numbers(ksns);
    let mut group = [Key::new([0; 16]); WIDTH];
    duk_group::derive_many(bdk, &numbers[..count], &mut group[..count]);
    write_keys(&group[..count], keys);
}

/// Writes the bytes of keys one after the other.
fn write_keys(keys: &[Key<16>], bytes: &mut [u8])
    requires { length bytes.old ≡ 16 * length keys.now }
    ensures { (i : ℕ) → i < length keys.now → part_at 16 bytes.new i ≡ bytes_at keys.now i }
{
    for (i, key) in keys.iter().enumerate() {
        bytes[16 * i..16 * i + 16].copy_from_slice(&key.bytes());
    }
}

/// The key serial numbers of ten bytes each, in their order.
fn serial_numbers(ksns: &[u8]) -> [Ksn; WIDTH]
    requires whole { length ksns.now % 10 ≡ 0 }
    requires few { length ksns.now / 10 ≤ WIDTH }
    ensures { (i : ℕ) → i < length ksns.now / 10
        → number_at result i ≡ serial_of_bytes (part_at 10 ksns.now i) }
{
    let mut numbers = [Ksn::from_bytes([0; 10]); WIDTH];
    for i in 0..ksns.len() / 10 {
        numbers[i] = serial_number(&ksns[10 * i..10 * i + 10]);
    }
    numbers
}
