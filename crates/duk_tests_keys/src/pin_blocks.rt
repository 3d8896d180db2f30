//! PIN blocks of ISO 9564-1 format 0, worked out by hand.

use duk_pin::{Pan, Pin, PinFault, decode, encode};
use duk_tests_support::printed::misprinted;

// A PIN, a PAN and their block.
const BLOCKS: [(&str, &str, u64); 3] = [
    ("1234", "4012345678909", 0x0412_74ED_CBA9_876F),
    ("123456789012", "4012345678909", 0x0C12_7444_4CC6_6A6F),
    ("1234", "123456789012", 0x0412_35DC_BA98_76FE),
];

/// The block of a PIN, where the PIN is found in it again.
fn block_of(pin: &str, pan: &str) -> Result<Option<u64>, PinFault> {
    let pin = Pin::parse(pin)?;
    let pan = Pan::parse(pan)?;
    let block = encode(&pin, &pan);
    if decode(block, &pan) == Some(pin) {
        Ok(Some(u64::from_be_bytes(block)))
    } else {
        Ok(None)
    }
}

#[test]
fn blocks(rt: HostRuntime) {
    for (pin, pan, block) in BLOCKS {
        assert_eq!(rt; block_of(pin, pan), Ok(Some(block)));
    }
}

// Blocks of no PIN under a PAN whose account field is zero: for their filler, their format, a
// length of 3 and of 13, and a digit of A.
const NO_BLOCKS: [u64; 5] = [
    0x0412_34FF_FFFF_FFFE,
    0x1412_34FF_FFFF_FFFF,
    0x0312_3FFF_FFFF_FFFF,
    0x0D12_3456_7890_123F,
    0x0412_A4FF_FFFF_FFFF,
];

/// Whether a block has no PIN under that PAN.
fn has_no_pin(block: u64) -> Result<bool, PinFault> {
    Ok(decode(block.to_be_bytes(), &Pan::parse("000000000000")?).is_none())
}

#[test]
fn no_blocks(rt: HostRuntime) {
    for block in NO_BLOCKS {
        assert_eq!(rt; has_no_pin(block), Ok(true));
    }
}

static FAULTS: [(PinFault, &str); 4] = [
    (PinFault::PinLength, "PinLength"),
    (PinFault::PinDigit, "PinDigit"),
    (PinFault::PanLength, "PanLength"),
    (PinFault::PanDigit, "PanDigit"),
];

#[test]
fn names_of_faults(rt: HostRuntime) {
    assert_eq!(rt; misprinted(rt.alloc(), &FAULTS), Ok(None));
}
