//! The sample sequence of ANSI X9.24-1, and one of its keys in full.

use duk_tdes::Key;
use duk_tests_support::sample::{BDK, INITIAL, iksn, key};
use duk_tree::{Ksn, derive, initial_key, pin_key, request_key, response_key, step, usable};

/// How many of the numbers below are the first ones without a gap.
pub const FIRST: usize = 30;

/// The first thirty numbers of the sample sequence, numbers with ten ones, and the last one, each with its key.
#[rattlefmt::skip]
pub static KEYS: [(&str, u128); 36] = [
    ("FFFF9876543210E00001", 0x042666B4_9184CFA3_68DE9628_D0397BC9),
    ("FFFF9876543210E00002", 0xC46551CE_F9FD24B0_AA9AD834_130D3BC7),
    ("FFFF9876543210E00003", 0x0DF3D942_2ACA56E5_47676D07_AD6BADFA),
    ("FFFF9876543210E00004", 0x279C0F6A_EED0BE65_2B2C733E_1383AE91),
    ("FFFF9876543210E00005", 0x5F8DC6D2_C845C125_508DDC04_8093B83F),
    ("FFFF9876543210E00006", 0x5E415CB0_BAF9F03C_D0C14B63_FB62FF43),
    ("FFFF9876543210E00007", 0x0C8F780B_7C8B49D0_AE84A9EB_2A6CE660),
    ("FFFF9876543210E00008", 0x27F66D52_44FF62E1_AA6F6120_EDEB4280),
    ("FFFF9876543210E00009", 0x27E31064_FDC56569_8900E205_7F658E7E),
    ("FFFF9876543210E0000A", 0x6CF2500A_22507C7C_C776CEAD_C1E33014),
    ("FFFF9876543210E0000B", 0x3E8260BA_04B2D620_C01482B3_819A18B7),
    ("FFFF9876543210E0000C", 0xB716E1E1_1CF53D80_726CAEE7_5C3A624F),
    ("FFFF9876543210E0000D", 0xE072EDF9_5340535F_B6C581C5_8FBF2533),
    ("FFFF9876543210E0000E", 0xA8004608_7F5B8F24_5AAD95E1_8429084F),
    ("FFFF9876543210E0000F", 0x93DD5B95_6C487847_2E453AAE_FD32A5AA),
    ("FFFF9876543210E00010", 0x59598DCB_D9BD94C0_94165CE4_53585F57),
    ("FFFF9876543210E00011", 0x2B5F01F4_F0CC05EA_639D5232_31BF1BA2),
    ("FFFF9876543210E00012", 0x9CF640F2_79C2AEE6_15F725EE_EAC2CBAF),
    ("FFFF9876543210E00013", 0xC3DF489F_DF1153B4_F03DE97C_27DC4C2F),
    ("FFFF9876543210E00014", 0x65848850_7721B3F1_4737FA93_F923CBD2),
    ("FFFF9876543210E00015", 0xE161D195_6A61F6D2_F37AFD7F_9CC3699A),
    ("FFFF9876543210E00016", 0xED729ABC_14272914_3D0132C4_3AEF11EE),
    ("FFFF9876543210E00017", 0x5F4111E6_A3C3EA37_0D305275_0372AF8A),
    ("FFFF9876543210E00018", 0xAB5EE3BA_54B125F5_D3F0688E_61C780C5),
    ("FFFF9876543210E00019", 0xB37FE71F_899690B6_FE06E69A_3F8DDF17),
    ("FFFF9876543210E0001A", 0xF4E79E1C_5AAC462F_27606C7B_8A3F169E),
    ("FFFF9876543210E0001B", 0x4982CD79_1C8DFBC0_3246B240_019F89CC),
    ("FFFF9876543210E0001C", 0xBCA4A42B_66A7E561_681BEC58_42E767BE),
    ("FFFF9876543210E0001D", 0x25C9B1FD_68D22A12_D5240FC0_6004666A),
    ("FFFF9876543210E0001E", 0xEB9242A9_78D4200D_E5660CF3_64E5A763),
    ("FFFF9876543210E003FF", 0x0167CF12_F59A20C0_12F59A8B_713A09C8),
    ("FFFF9876543210E007FE", 0xEBCC426D_A336B253_BE923353_A4E73DAD),
    ("FFFF9876543210E00800", 0x7E4AB005_422BCADC_5F653639_64EF6504),
    ("FFFF9876543210EFF800", 0xF9CDFEBF_4F5B1D9E_B3EC1245_4527E176),
    ("FFFF9876543210F00000", 0xAA4D58DB_653EC74A_48C75F2F_047DD2B5),
    ("FFFF9876543210FFF800", 0x4124BC96_50E70B10_DED3378C_9F4E2E42),
];

/// The number that a key's bytes make.
fn number_of(key: Key<16>) -> u128 {
    u128::from_be_bytes(key.bytes())
}

/// The key of this key serial number, if it is usable.
fn key_of(number: &str) -> Option<u128> {
    let ksn = Ksn::parse(number)?;
    if usable(ksn.counter()) {
        Some(number_of(derive(&key(BDK), ksn)))
    } else {
        None
    }
}

#[test]
fn sample_sequence(rt: HostRuntime) {
    for (number, expected) in &KEYS {
        assert_eq!(rt; key_of(number), Some(*expected));
    }
}

/// The key that a step makes of the initial key at the first number.
fn first_step() -> u128 {
    let register = [0x98, 0x76, 0x54, 0x32, 0x10, 0xE0, 0, 1];
    number_of(step(&key(INITIAL), register))
}

/// The variants of the key of the first number: for the PIN, for requests and for responses.
fn first_variants() -> [u128; 3] {
    let first = key(KEYS[0].1);
    let pin = number_of(pin_key(&first));
    let request = number_of(request_key(&first));
    [pin, request, number_of(response_key(&first))]
}

#[test]
fn first_number(rt: HostRuntime) {
    assert_eq!(rt; number_of(initial_key(&key(BDK), iksn())), INITIAL);
    assert_eq!(rt; first_step(), KEYS[0].1);
    assert_eq!(rt;
        first_variants(),
        [
            0x042666B4_9184CF5C_68DE9628_D0397B36,
            0x042666B4_918430A3_68DE9628_D03984C9,
            0x042666B4_6E84CFA3_68DE9628_2F397BC9,
        ]
    );
}
