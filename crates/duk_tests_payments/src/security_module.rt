//! A host security module with the sample keys of ANSI X9.24-1 and a published key block.

use duk_block::BlockFault;
use duk_hsm::{Hsm, HsmFault};
use duk_tdes::array_of;
use duk_tests_support::frames::{FIRST_REPLY, REQUEST_OF_500};
use duk_tests_support::sample::{
    BASE_BLOCK, INITIAL_BLOCK, LMK, LOADING, PREFIX, PUBLISHED, iksn, key, ksn, pan,
};
use duk_tree::Ksn;

/// A security module with the sample base derivation key and no zone key.
fn module_without_zone() -> Result<Hsm<16>, HsmFault> {
    let mut hsm = Hsm::new(key(LMK));
    hsm.load_bdk(PREFIX, BASE_BLOCK)?;
    Ok(hsm)
}

/// A security module with the sample base derivation key and the zone key.
pub fn security_module() -> Result<Hsm<16>, HsmFault> {
    let mut hsm = module_without_zone()?;
    hsm.load_zone(PUBLISHED)?;
    Ok(hsm)
}

/// The first byte of the prefix of a key set that is loaded, one after the other, and what comes of
/// it: there is room for eight, and for each prefix once.
static KEY_SETS: [(u8, Result<(), HsmFault>); 11] = [
    (0, Ok(())),
    (0, Err(HsmFault::PrefixTaken)),
    (1, Ok(())),
    (2, Ok(())),
    (3, Ok(())),
    (4, Ok(())),
    (5, Ok(())),
    (6, Ok(())),
    (7, Ok(())),
    (8, Err(HsmFault::SlotsFull)),
    (3, Err(HsmFault::PrefixTaken)),
];

#[test]
fn key_sets(rt: HostRuntime) {
    let mut hsm = Hsm::<16>::new(key(LMK));
    for (first, reported) in &KEY_SETS {
        assert_eq!(rt; hsm.load_bdk([*first, 0, 0, 0, 1], BASE_BLOCK), *reported);
    }
}

/// What comes of loading a zone key as a base derivation key, and twice as what it is, and a base
/// derivation key as a zone key.
fn of_uses() -> [Result<(), HsmFault>; 4] {
    let mut hsm = Hsm::new(key(LMK));
    let as_base = hsm.load_bdk(PREFIX, PUBLISHED);
    let as_zone = hsm.load_zone(BASE_BLOCK);
    let first = hsm.load_zone(PUBLISHED);
    [as_base, as_zone, first, hsm.load_zone(PUBLISHED)]
}

#[test]
fn uses(rt: HostRuntime) {
    let wrong = Err(HsmFault::WrongUse);
    assert_eq!(rt; of_uses(), [wrong, wrong, Ok(()), Err(HsmFault::ZoneTaken)]);
}

/// Whether the sample initial key is issued in its key block.
fn is_issued(pad: &[u8]) -> Result<bool, HsmFault> {
    let block = module_without_zone()?.issue(iksn(), &key(LOADING), pad)?;
    Ok(block.as_slice() == INITIAL_BLOCK.as_slice())
}

#[test]
fn an_initial_key(rt: HostRuntime) {
    assert_eq!(rt; is_issued(&[0; 6]), Ok(true));
    assert_eq!(rt;
        is_issued(&[0; 5]),
        Err(HsmFault::Block(BlockFault::PadLength))
    );
}

/// What comes of the MAC of the request of 500, at this number.
fn verify_at(number: Ksn) -> Result<(), HsmFault> {
    let request = REQUEST_OF_500.as_slice();
    let mac = array_of(&request[40..48]);
    module_without_zone()?.verify(number, &request[2..40], mac)
}

/// The MAC of the reply to the first number, as the module makes it.
fn reply_mac() -> Result<u64, HsmFault> {
    let reply = FIRST_REPLY.as_slice();
    let mac = module_without_zone()?.reply_mac(ksn(1), &reply[2..16])?;
    Ok(u64::from_be_bytes(mac))
}

#[test]
fn macs(rt: HostRuntime) {
    let unknown = Ksn::from_bytes([0, 0xFF, 0x98, 0x76, 0x54, 0x32, 0x10, 0xE0, 0x07, 0xFF]);
    assert_eq!(rt; verify_at(ksn(1)), Ok(()));
    assert_eq!(rt; verify_at(ksn(2)), Err(HsmFault::BadMac));
    assert_eq!(rt; verify_at(ksn(0x7FF)), Err(HsmFault::BadCounter));
    assert_eq!(rt; verify_at(unknown), Err(HsmFault::NoKeySet));
    assert_eq!(rt; reply_mac(), Ok(0x591B_50E0_CA98_FE70));
}

/// The PIN block under the zone key that one at the first number is translated to.
fn translate(hsm: Result<Hsm<16>, HsmFault>, block: u64) -> Result<u64, HsmFault> {
    match pan() {
        Ok(pan) => Ok(u64::from_be_bytes(hsm?.translate(ksn(1), block.to_be_bytes(), &pan)?)),
        Err(_) => Err(HsmFault::BadPinBlock),
    }
}

/// The PIN block under the zone key was computed with OpenSSL.
#[test]
fn pin_blocks(rt: HostRuntime) {
    let block = 0x1B9C_1845_EB99_3A7A;
    assert_eq!(rt;
        translate(security_module(), block),
        Ok(0xF590_CAA4_0803_0850)
    );
    assert_eq!(rt; translate(security_module(), 0), Err(HsmFault::BadPinBlock));
    assert_eq!(rt;
        translate(module_without_zone(), block),
        Err(HsmFault::NoZone)
    );
}
