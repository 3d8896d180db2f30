//! Key serial numbers at random, the same ones in each run.

use duk_tree::{Ksn, usable};

/// Marsaglia's generator xorshift64, of numbers of 64 bits. They need only differ.
#[derive(Drop)]
pub struct Random {
    state: u64,
}

impl Random {
    /// The generator that begins with this number.
    pub fn from(state: u64) -> Self {
        Random { state }
    }

    /// The next number.
    fn number(&mut self) -> u64 {
        self.state ^= self.state << 13;
        self.state ^= self.state >> 7;
        self.state ^= self.state << 17;
        self.state
    }

    /// A key serial number that begins with these two bytes.
    pub fn serial(&mut self, first: [u8; 2]) -> Ksn {
        let mut bytes = [0; 10];
        bytes[..2].copy_from_slice(&first);
        bytes[2..].copy_from_slice(&self.number().to_be_bytes());
        let ksn = Ksn::from_bytes(bytes);
        // Of more than ten one bits the others are at most ten.
        if usable(ksn.counter()) {
            ksn
        } else {
            ksn.with_counter(0x1F_FFFF - ksn.counter())
        }
    }

    /// A key serial number that begins with these five bytes.
    pub fn serial_of(&mut self, prefix: [u8; 5]) -> Ksn {
        let mut bytes = self.serial([0, 0]).bytes();
        bytes[..5].copy_from_slice(&prefix);
        Ksn::from_bytes(bytes)
    }
}
