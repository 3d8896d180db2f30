//! The keys that a module holds, out of its bytes.

ghost use Rattle.std.specs.Prelude.{◌≡◌, MatchOption, IsTrue, false, length};
ghost use Rattle.std.specs.Option.{option_map};
ghost use Rattle.duk_hsm.specs.Keys.{HsmKeys};
ghost use Rattle.duk_hsm.specs.Load.{IsZoneLoaded};
ghost use Rattle.duk_tdes.specs.KeyBytes.{bytes_of};
ghost use Rattle.duk_tdes.specs.Tdes.{IsTdesLength};
ghost use Rattle.duk_calls.specs.Modules.{IsEntryLoaded, IsModule, IsNoModule, block_in, fault_of_hsm, lmk_in};

use crate::arguments::tdes_key;
use crate::fault::Fault;
use byteorder::{BigEndian, ByteOrder};
use duk_block::{KeyUse, unwrap_for};
use duk_hsm::{Hsm, HsmFault};
use duk_tdes::{Key, KeyBytes, array_of};

/// The bytes of a module.
pub(crate) const MODULE: usize = 4706;

/// The bytes of an entry, and how many there are: those of eight base derivation keys and a zone key.
pub(crate) const ENTRY: usize = 520;

pub(crate) const ENTRIES: usize = 9;

/// In an entry, behind the length of its key block: what the key is for, its prefix, the key block.
pub(crate) const KIND_AT: usize = 2;

pub(crate) const PREFIX_AT: usize = 3;

pub(crate) const BLOCK_AT: usize = 8;

/// Behind the entries: how many are used, the length of the local master key, and that key.
pub(crate) const COUNT_AT: usize = 4680;

pub(crate) const LMK_LENGTH_AT: usize = 4681;

pub(crate) const LMK_AT: usize = 4682;

/// What keys are for.
pub(crate) const BDK: u8 = 0;

pub(crate) const ZONE: u8 = 1;

/// The keys of a module, ready for use.
#[derive(Drop)]
pub(crate) struct Held<const N: usize> {
    /// The security module.
    pub(crate) hsm: Hsm<N>,
    /// Its zone key.
    pub(crate) zone: Option<KeyBytes>,
}

/// The local master key of a module.
pub(crate) fn lmk_in(image: &[u8]) -> Option<KeyBytes>
    requires { length image.now ≡ MODULE }
    ensures { MatchOption result (¬ IsTdesLength (length (lmk_in image.now)))
        (λ lmk. (bytes_of lmk ≡ lmk_in image.now) × IsTdesLength (length (lmk_in image.now))) }
{
    tdes_key(lmk_bytes(image))
}

/// The bytes of a module's local master key.
fn lmk_bytes(image: &[u8]) -> &[u8]
    requires { length image.now ≡ MODULE }
    ensures { result.now ≡ lmk_in image.now }
{
    let end = LMK_AT + usize::from(image[LMK_LENGTH_AT]);
    &image[LMK_AT..end.min(image.len())]
}

/// The keys of a module with this local master key.
pub(crate) fn held_in<const N: usize>(lmk: &Key<N>, image: &[u8]) -> Option<Held<N>>
    requires size { length image.now ≡ MODULE }
    requires lmk { lmk.now ≡ lmk_in image.now }
    requires tdes { IsTdesLength N }
    ensures { MatchOption result (IsNoModule image.now)
        (λ held. IsModule image.now held.hsm × (option_map bytes_of held.zone ≡ held.hsm.zone)) }
{
    duk_block::laws::one_reading();
    duk_block::laws::no_fault();
    duk_tdes::laws::tdes_key(lmk);
    let count = usize::from(image[COUNT_AT]);
    if count > ENTRIES {
        return None;
    }
    let mut held = Held {
        hsm: Hsm::new(*lmk),
        zone: None,
    };
    for i in 0..count {
        if !load_entry(&mut held, lmk, &image[ENTRY * i..ENTRY * i + ENTRY]) {
            return None;
        }
    }
    Some(held)
}

/// Loads the key of an entry, and tells whether that could be done.
fn load_entry<const N: usize>(held: &mut Held<N>, lmk: &Key<N>, entry: &[u8]) -> bool
    requires size { length entry.now ≡ ENTRY }
    requires tdes { IsTdesLength N }
    requires lmk { held.old.hsm.lmk ≡ lmk.now }
    requires zone { option_map bytes_of held.old.zone ≡ held.old.hsm.zone }
    ensures loaded { IsTrue result → IsEntryLoaded entry.now held.old.hsm held.new.hsm }
    ensures refused { result ≡ false → (keys : HsmKeys)
        → ¬ IsEntryLoaded entry.now held.old.hsm keys }
    ensures lmk { IsTrue result → held.new.hsm.lmk ≡ lmk.now }
    ensures zone { IsTrue result → option_map bytes_of held.new.zone ≡ held.new.hsm.zone }
{
    duk_block::laws::one_reading();
    duk_block::laws::no_fault();
    duk_tdes::laws::tdes_key(lmk);
    let block = block_in(entry);
    match entry[KIND_AT] {
        BDK => {
            let prefix = array_of(&entry[PREFIX_AT..BLOCK_AT]);
            match held.hsm.load_bdk(prefix, block) {
                Ok(()) => true,
                Err(_) => false,
            }
        }
        ZONE => load_zone(held, lmk, block),
        _ => false,
    }
}

/// Loads a zone key, and tells whether that could be done.
fn load_zone<const N: usize>(held: &mut Held<N>, lmk: &Key<N>, block: &[u8]) -> bool
    requires tdes { IsTdesLength N }
    requires lmk { held.old.hsm.lmk ≡ lmk.now }
    ensures loaded { IsTrue result → IsZoneLoaded held.old.hsm block.now held.new.hsm }
    ensures refused { result ≡ false → (keys : HsmKeys)
        → ¬ IsZoneLoaded held.old.hsm block.now keys }
    ensures zone { IsTrue result → option_map bytes_of held.new.zone ≡ held.new.hsm.zone }
{
    duk_block::laws::one_reading();
    duk_block::laws::no_fault();
    duk_tdes::laws::tdes_key(lmk);
    let Ok(zone) = unwrap_for(KeyUse::PinEncryption, lmk, block) else {
        return false;
    };
    match held.hsm.load_zone(block) {
        Ok(()) => {
            held.zone = Some(zone);
            true
        }
        Err(_) => false,
    }
}

/// The key block of an entry.
fn block_in(entry: &[u8]) -> &[u8]
    requires { length entry.now ≡ ENTRY }
    ensures { result.now ≡ block_in entry.now }
{
    let end = BLOCK_AT + usize::from(BigEndian::read_u16(entry));
    &entry[BLOCK_AT..end.min(entry.len())]
}

/// The fault of a security module, as the calls have it.
pub(crate) fn fault_of_hsm(fault: HsmFault) -> Fault
    ensures { result ≡ fault_of_hsm fault }
{
    match fault {
        HsmFault::Block(why) => Fault::Block(why),
        HsmFault::WrongUse => Fault::WrongUse,
        HsmFault::PrefixTaken => Fault::PrefixTaken,
        HsmFault::SlotsFull => Fault::SlotsFull,
        HsmFault::ZoneTaken => Fault::ZoneTaken,
        HsmFault::NoKeySet => Fault::NoKeySet,
        HsmFault::NoZone => Fault::NoZone,
        HsmFault::BadCounter => Fault::NotUsable,
        HsmFault::BadMac => Fault::BadMac,
        HsmFault::BadPinBlock => Fault::NotAPinBlock,
    }
}
