//! The format of a log of used numbers: records of 16 bytes, in groups of one.

ghost use Rattle.std.specs.Prelude.{◌≡◌, ◌++◌, length, replicate};
ghost use Rattle.duk_tree.specs.Serial.{IsSerial, serial_bytes};
ghost use Rattle.duk_store.specs.LogFormat.{log_format};

use crate::format::Format;
use duk_tree::Ksn;

/// The bytes of a record: its gate, the ten bytes of a key serial number, and five zeros.
pub const RECORD_LENGTH: usize = 16;

/// The bytes of a record behind its gate.
const CONTENTS_LENGTH: usize = 15;

/// The format of a log: each record has one number, and is a group of its own.
#[derive(Drop)]
pub struct LogFormat {}

impl Format for LogFormat {
    type Item = Ksn;

    ghost meaning = { λ _. log_format };

    fn laws(&self) {}

    fn record_length(&self) -> usize {
        RECORD_LENGTH
    }

    fn headers(&self) -> u64 {
        0
    }

    fn is_header(&self, _record: &[u8]) -> bool {
        false
    }

    fn identity(&self, _header: &[u8]) -> u64 {
        0
    }

    fn write(&self, _identity: u64, _place: u64, _followers: u16, item: &Ksn, contents: &mut [u8]) {
        duk_tree::laws::serials();
        contents.copy_from_slice(&number_bytes(*item));
    }

    fn read(&self, _identity: u64, _place: u64, contents: &[u8]) -> Option<(u16, Ksn)> {
        if contents[10..] != [0; 5] {
            return None;
        }
        let mut number = [0; 10];
        number.copy_from_slice(&contents[..10]);
        Some((0, Ksn::from_bytes(number)))
    }
}

/// The contents of a record with this number.
fn number_bytes(number: Ksn) -> [u8; CONTENTS_LENGTH]
    ensures bytes { result ≡ serial_bytes number ++ replicate 5 0 }
    ensures length { length result ≡ 15 }
    ensures serial { IsSerial number }
{
    let mut bytes = [0; CONTENTS_LENGTH];
    bytes[..10].copy_from_slice(&number.bytes());
    bytes
}
