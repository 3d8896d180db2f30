//! Security modules, each in the bytes that the caller holds: a local master key, and under it the
//! key blocks of a host's keys.

ghost use Rattle.std.specs.Prelude.{◌≡◌, ◌<◌, ◌≤◌, ◌+◌, ◌++◌, IfErr, OnOk, length};
ghost use Rattle.duk_hsm.specs.Load.{IsBdkLoaded, IsZoneLoaded, LoadBdkRefused, LoadZoneRefused};
ghost use Rattle.duk_tdes.specs.KeyBytes.{bytes_of};
ghost use Rattle.duk_tdes.specs.Tdes.{IsTdesLength};
ghost use Rattle.duk_calls.specs.Modules.{ModuleLoadBdkAnswers, ModuleLoadZoneAnswers, ModuleNewAnswers, count_in, entry_bytes, lmk_in, new_image};
ghost use Rattle.duk_calls.specs.inner.Modules.{IsAppended, MayBeLoaded, MayNotBeLoaded};

use crate::arguments::{tdes_key, write_front};
use crate::fault::Fault;
use crate::module_keys::{
    BDK, COUNT_AT, ENTRY, LMK_LENGTH_AT, MODULE, ZONE, fault_of_hsm, held_in, lmk_in,
};
use arrayvec::ArrayVec;
use byteorder::{BigEndian, ByteOrder};
use duk_tdes::{Key, KeyBytes, array_of};
use duk_tree::PREFIX_LENGTH;

/// The most bytes of a local master key.
const MOST_LMK: usize = 24;

/// Writes a module with this local master key (16 or 24 bytes) alone in the front of a slice of at
/// least 4,706 bytes.
///
/// Refused with `Length`.
pub fn module_new(lmk: &[u8], image: &mut [u8]) -> Result<(), Fault>
    ensures { ModuleNewAnswers lmk.now image.old image.new result }
{
    let Some(_) = tdes_key(lmk) else {
        return Err(Fault::Length);
    };
    if image.len() < MODULE {
        return Err(Fault::Length);
    }
    write_front(new_image(lmk).as_slice(), image);
    Ok(())
}

/// The image of a module with this local master key alone.
fn new_image(lmk: &[u8]) -> ArrayVec<u8, MODULE>
    requires { length lmk.now ≤ 24 }
    ensures { result.items ≡ new_image lmk.now }
{
    let mut image = ArrayVec::new();
    extend(&mut image, &[0; LMK_LENGTH_AT]);
    extend(&mut image, &[lmk.len() as u8]);
    extend(&mut image, lmk);
    extend(&mut image, &[0; MOST_LMK][lmk.len()..]);
    image
}

/// Writes bytes behind those of an image.
fn extend(image: &mut ArrayVec<u8, MODULE>, bytes: &[u8])
    requires { length image.old.items + length bytes.now ≤ 4706 }
    ensures { image.new.items ≡ image.old.items ++ bytes.now }
{
    image.try_extend_from_slice(bytes).unwrap();
}

/// Loads the base derivation key of a key block under the module's local master key, for the key
/// serial numbers that begin with these five bytes. The block has usage `B0`, algorithm `T`, mode
/// `X` or `N`, and a key of 16 bytes.
///
/// Refused with, in this order: `Length`; `NotAModule`; the block's first fault, as by `unwrap`;
/// `WrongUse`; `PrefixTaken`; `SlotsFull`.
pub fn module_load_bdk(prefix: &[u8], block: &[u8], image: &mut [u8]) -> Result<(), Fault>
    ensures { ModuleLoadBdkAnswers prefix.now block.now image.old image.new result }
{
    if [image.len(), prefix.len()] != [MODULE, PREFIX_LENGTH] {
        return Err(Fault::Length);
    }
    let Some(lmk) = lmk_in(image) else {
        return Err(Fault::NotAModule);
    };
    match test_bdk(&lmk, image, array_of(prefix), block) {
        Ok(()) => {
            append(image, BDK, array_of(prefix), block);
            Ok(())
        }
        Err(why) => Err(why),
    }
}

/// Loads the zone key of a key block under the module's local master key. The block has usage `P0`,
/// algorithm `T`, and mode `E`, `B` or `N`.
///
/// Refused with, in this order: `Length`; `NotAModule`; the block's first fault, as by `unwrap`;
/// `WrongUse`; `ZoneTaken`.
pub fn module_load_zone(block: &[u8], image: &mut [u8]) -> Result<(), Fault>
    ensures { ModuleLoadZoneAnswers block.now image.old image.new result }
{
    if image.len() != MODULE {
        return Err(Fault::Length);
    }
    let Some(lmk) = lmk_in(image) else {
        return Err(Fault::NotAModule);
    };
    match test_zone(&lmk, image, block) {
        Ok(()) => {
            append(image, ZONE, [0; PREFIX_LENGTH], block);
            Ok(())
        }
        Err(why) => Err(why),
    }
}

/// Whether a module can load a base derivation key, where its local master key is of either length.
fn test_bdk(
    lmk: &KeyBytes,
    image: &[u8],
    prefix: [u8; PREFIX_LENGTH],
    block: &[u8],
) -> Result<(), Fault>
    requires size { length image.now ≡ MODULE }
    requires lmk { bytes_of lmk.now ≡ lmk_in image.now }
    ensures loads { OnOk result (MayBeLoaded
        (λ before after. IsBdkLoaded before prefix block.now after) image.now block.now) }
    ensures refused { IfErr result
        (MayNotBeLoaded (λ keys. LoadBdkRefused keys prefix block.now) image.now) }
{
    match lmk {
        KeyBytes::Double(lmk) => test_bdk_under(lmk, image, prefix, block),
        KeyBytes::Triple(lmk) => test_bdk_under(lmk, image, prefix, block),
    }
}

/// Whether a module with this local master key can load a base derivation key.
fn test_bdk_under<const N: usize>(
    lmk: &Key<N>,
    image: &[u8],
    prefix: [u8; PREFIX_LENGTH],
    block: &[u8],
) -> Result<(), Fault>
    requires size { length image.now ≡ MODULE }
    requires lmk { lmk.now ≡ lmk_in image.now }
    requires tdes { IsTdesLength N }
    ensures loads { OnOk result (MayBeLoaded
        (λ before after. IsBdkLoaded before prefix block.now after) image.now block.now) }
    ensures refused { IfErr result
        (MayNotBeLoaded (λ keys. LoadBdkRefused keys prefix block.now) image.now) }
{
    let Some(held) = held_in(lmk, image) else {
        return Err(Fault::NotAModule);
    };
    let mut hsm = held.hsm;
    match hsm.load_bdk(prefix, block) {
        Ok(()) => Ok(()),
        Err(why) => Err(fault_of_hsm(why)),
    }
}

/// Whether a module can load a zone key, where its local master key is of either length.
fn test_zone(lmk: &KeyBytes, image: &[u8], block: &[u8]) -> Result<(), Fault>
    requires size { length image.now ≡ MODULE }
    requires lmk { bytes_of lmk.now ≡ lmk_in image.now }
    ensures loads { OnOk result (MayBeLoaded
        (λ before after. IsZoneLoaded before block.now after) image.now block.now) }
    ensures refused { IfErr result
        (MayNotBeLoaded (λ keys. LoadZoneRefused keys block.now) image.now) }
{
    match lmk {
        KeyBytes::Double(lmk) => test_zone_under(lmk, image, block),
        KeyBytes::Triple(lmk) => test_zone_under(lmk, image, block),
    }
}

/// Whether a module with this local master key can load a zone key.
fn test_zone_under<const N: usize>(lmk: &Key<N>, image: &[u8], block: &[u8]) -> Result<(), Fault>
    requires size { length image.now ≡ MODULE }
    requires lmk { lmk.now ≡ lmk_in image.now }
    requires tdes { IsTdesLength N }
    ensures loads { OnOk result (MayBeLoaded
        (λ before after. IsZoneLoaded before block.now after) image.now block.now) }
    ensures refused { IfErr result
        (MayNotBeLoaded (λ keys. LoadZoneRefused keys block.now) image.now) }
{
    let Some(held) = held_in(lmk, image) else {
        return Err(Fault::NotAModule);
    };
    let mut hsm = held.hsm;
    match hsm.load_zone(block) {
        Ok(()) => Ok(()),
        Err(why) => Err(fault_of_hsm(why)),
    }
}

/// Writes the next entry of a module.
fn append(image: &mut [u8], kind: u8, prefix: [u8; PREFIX_LENGTH], block: &[u8])
    requires size { length image.old ≡ MODULE }
    requires room { count_in image.old < 9 }
    requires fits { length block.now ≤ 512 }
    ensures { IsAppended (entry_bytes kind prefix block.now) image.old image.new }
{
    let count = usize::from(image[COUNT_AT]);
    let entry = entry_of(kind, prefix, block);
    write_front(
        entry.as_slice(),
        &mut image[ENTRY * count..ENTRY * count + ENTRY],
    );
    image[COUNT_AT] = count as u8 + 1;
}

/// An entry, as far as its key block.
fn entry_of(kind: u8, prefix: [u8; PREFIX_LENGTH], block: &[u8]) -> ArrayVec<u8, ENTRY>
    requires { length block.now ≤ 512 }
    ensures { result.items ≡ entry_bytes kind prefix block.now }
{
    let mut length = [0; 2];
    BigEndian::write_u16(&mut length, block.len() as u16);
    let mut entry = ArrayVec::new();
    entry.try_extend_from_slice(&length).unwrap();
    entry.try_extend_from_slice(&[kind]).unwrap();
    entry.try_extend_from_slice(&prefix).unwrap();
    entry.try_extend_from_slice(block).unwrap();
    entry
}
